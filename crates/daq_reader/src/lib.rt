//! The reader of recordings: from the packets of a recording back to the samples of its DAQ lists.
#![tactic(auto)]

mod frame_fault;
pub mod laws;
mod list_reader;
mod list_shape;
mod packet_fault;
mod read_fault;
mod reader;
mod reading;
mod ready;
mod sample_log;
mod sample_view;
mod samples;
mod slots;
mod unread;

pub use frame_fault::FrameFault;
pub use list_reader::ListReader;
pub use list_shape::ListShape;
pub use packet_fault::PacketFault;
pub use read_fault::ReadFault;
pub use reader::Reader;
pub use reading::{read, read_frame, read_packet};
pub use ready::{reader_of, shapes_of};
pub use sample_log::SampleLog;
pub use sample_view::SampleView;
pub use samples::Samples;
pub use unread::Unread;
