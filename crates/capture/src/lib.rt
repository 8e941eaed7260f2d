//! Captures of packets, in the format of libpcap or in pcapng, read packet by packet.
#![tactic(auto)]

mod block_kind;
mod blocks;
mod capture_fault;
mod capture_reader;
mod capture_time;
mod captured;
mod format;
mod interface;
mod interface_block;
pub mod limits;
mod numbers;
mod options;
mod pcap_header;
mod pcap_records;
mod step;

pub use capture_fault::CaptureFault;
pub use capture_reader::CaptureReader;
pub use capture_time::CaptureTime;
pub use captured::Captured;
pub use numbers::number_at;
pub use step::Step;
