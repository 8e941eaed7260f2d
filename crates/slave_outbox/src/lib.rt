//! What a slave sends: it takes the items of an event channel's ring while a master starts and
//! stops DAQ lists, lays out the samples of the lists that run, and keeps replies and samples,
//! under one counter, until its transport took them.
#![tactic(auto)]

mod account;
mod discarding;
mod intake;
pub mod laws;
mod laying;
mod limits;
mod list_intake;
mod origin;
mod outbox;
mod sent_log;
mod step;
mod taking;

pub use intake::Intake;
pub use limits::{MAX_PAGE, MAX_REPLIES, PAGE};
pub use origin::Origin;
pub use outbox::Outbox;
pub use step::Step;
