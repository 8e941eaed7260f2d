//! An XCP slave: a master connects to it, and starts and stops measurements while tasks run.
#![tactic(auto)]

mod answering;
mod closing;
mod complete;
mod datagrams;
mod finishing;
mod hanging_up;
mod hearing;
pub mod laws;
mod limits;
mod opening;
mod page;
mod plan;
mod rings;
mod round;
mod sending;
mod slave;
mod starting;
mod state;
mod stream;

pub use closing::Closed;
pub use complete::Complete;
pub use datagrams::datagram;
pub use limits::MOST_ACTS;
pub use opening::OpenFault;
pub use slave::Slave;
pub use stream::MasterStream;
