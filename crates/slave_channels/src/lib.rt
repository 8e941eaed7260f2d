//! The slave's side of its event channels: measurements are opened, started, stopped and ended at
//! those that have lists of it, while their tasks run; and the account of what came back.
#![tactic(auto)]

mod account;
mod back;
mod channel;
mod channels;
mod discarding;
mod ending;
mod finished;
pub mod laws;
mod opened_with;
mod opening;
mod ordering;
mod part_discarding;
mod part_taking;
mod ring_ends;
mod share;
mod starting;
mod sums;
mod taking;
mod totals;

pub use account::Account;
pub use channel::Channel;
pub use channels::Channels;
pub use finished::Finished;
pub use sums::LAST;
