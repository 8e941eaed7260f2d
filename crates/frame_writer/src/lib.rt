//! Packets are written as frames to a writer, and read back from bytes, also in whatever pieces
//! these come (ASAM MCD-1 XCP, transport layer for Ethernet, header).
#![tactic(auto)]

mod byte_log;
mod fed;
mod frame_reader;
mod fuse_out;
mod into_buffer;
pub mod laws;
mod layout;
mod out;
mod reach;
mod reader;
mod sink_out;
mod std_out;
mod together;
mod vec_out;
mod within_room;
mod writer;

pub use byte_log::ByteLog;
pub use fed::{BadFrame, Fed};
pub use frame_reader::FrameReader;
pub use fuse_out::FuseOut;
pub use layout::{MAX_SAMPLE_BYTES, place};
pub use out::{Out, OutFault};
pub use reader::next_frame;
pub use sink_out::SinkOut;
pub use std_out::StdOut;
pub use vec_out::VecOut;
pub use writer::{FrameWriter, WriteFault};
