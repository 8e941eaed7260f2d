//! Rings of frames: what goes through is a sample as it will be sent, its frames with CTR 0 behind
//! a head, in blocks of eight bytes.
#![tactic(auto)]

mod block;
mod fitting;
mod frame_left;
mod frame_ring;
mod frame_send;
mod frame_take;
mod frames;
mod head;
pub mod laws;
pub mod limits;
mod record;

pub use block::{BLOCK, Block};
pub use fitting::{Front, front_len, put_frames};
pub use frame_left::FrameLeft;
pub use frame_ring::FrameRing;
pub use frame_send::{FrameSend, first_blocks};
pub use frame_take::FrameTake;
pub use frames::frames_of;
pub use head::Head;
pub use record::sample_blocks;
