//! The transmitter: it takes samples from the rings of all event channels in turn, and writes them
//! as frames.
#![tactic(auto)]

mod drain;
mod faults;
mod filling;
mod place;
mod pumped;
mod pumped_all;
mod pumping;
mod transmitter;
mod turn;

pub use faults::PumpFault;
pub use pumped::Pumped;
pub use pumped_all::PumpedAll;
pub use pumping::MAX_PUMP;
pub use transmitter::Transmitter;
