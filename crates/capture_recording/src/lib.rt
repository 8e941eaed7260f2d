//! A capture as a recording: from its bytes to the samples of the slaves in it.
#![tactic(auto)]

mod capture_read_fault;
mod capture_sink;
mod connection;
mod flow;
mod ip_data;
mod nanoseconds;
mod reading;
mod same_address;
mod sinks;
mod slave;
mod slaves;
mod talks;

pub use capture_read_fault::CaptureReadFault;
pub use capture_sink::CaptureSink;
pub use reading::read_capture;
pub use same_address::is_same_address;
pub use sinks::Sinks;
pub use slave::Slave;
pub use slaves::{MAX_SLAVES, Slaves};
