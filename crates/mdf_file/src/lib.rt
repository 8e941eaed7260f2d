//! A measurement file (ASAM MDF 4.1), written as its records come.
#![tactic(auto)]

mod about;
mod channels;
mod conversions;
mod data_out;
mod ending;
mod ends;
mod groups;
mod history;
mod limits;
mod mdf_fault;
mod mdf_out;
mod mdf_writer;
mod memory_out;
mod new_channel;
mod new_conversion;
mod next_place;
mod open_file;
mod open_group;
mod record_log;
mod records;
mod seek_out;
mod streamed_group;
mod texts;
mod told_groups;

pub use about::About;
pub use ending::{data_bytes, file_end};
pub use ends::FileEnd;
pub use limits::Limits;
pub use mdf_fault::MdfFault;
pub use mdf_out::MdfOut;
pub use mdf_writer::MdfWriter;
pub use memory_out::MemoryOut;
pub use new_channel::NewChannel;
pub use new_conversion::NewConversion;
pub use seek_out::SeekOut;
pub use streamed_group::StreamedGroup;
