//! The session of an XCP slave with its master: command packets and the replies to them (ASAM MCD-1
//! XCP, protocol layer, at the command of each).
#![tactic(auto)]

mod cto;
mod event_channel;
pub mod laws;
mod list_sets;
mod looks;
mod mode_set_up;
mod odt_set_up;
mod profile;
mod readers;
mod request;
mod session;
mod set_up;
mod source;
mod starts;
mod uploads;
mod writes;

pub use cto::Cto;
pub use event_channel::EventChannel;
pub use profile::{Profile, ProfileFault};
pub use request::Request;
pub use segments::{Segment, SegmentFault};
pub use session::Session;
pub use set_up::SetUp;
