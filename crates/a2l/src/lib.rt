//! What an A2L file says of what can be measured (ASAM MCD-2 MC, the description file): the
//! measurements with their addresses, how physical values come of them, how long a tick is, and how
//! packets look.
#![tactic(auto)]

mod description;
mod draft;
mod elements;
mod fault;
mod module_parts;
mod names;
mod reading;
mod resolving;

pub use a2l_entries::{Awaited, Layout, PacketForm, Refused, Told};
pub use description::{Description, Measurement, Method};
pub use fault::{A2lFault, Reason};
