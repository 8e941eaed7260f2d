//! A page of frames that wait for the transport: those of samples, as they came out of rings of
//! frames, and of replies. They are numbered where they are handed over.
#![tactic(auto)]

mod block_queue;
mod page;
mod peeking;
mod putting;
mod replying;
mod sending;
mod taking;
mod unit;

pub use page::FramePage;
pub use replying::REPLY_BLOCKS;
pub use unit::Unit;
