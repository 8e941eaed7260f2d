//! The session of a captured slave and its master in words: each command with its reply, and what
//! else the two sent.
#![tactic(auto)]

mod command_words;
mod event_words;
mod exchange;
mod frame_kind;
mod intel_order;
mod reply_words;
mod seconds;
mod story;

pub use command_words::CommandWords;
pub use event_words::EventWords;
pub use exchange::{Exchange, ended_by};
pub use frame_kind::{FrameKind, kind_of};
pub use reply_words::ReplyWords;
pub use seconds::Seconds;
pub use story::Story;
