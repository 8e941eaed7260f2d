//! The store of an XCP slave: its DAQ lists, as the calls that it accepted set them (ASAM MCD-1
//! XCP, protocol layer, data acquisition).
#![tactic(auto)]

mod checks;
pub mod command;
mod effects;
mod entry;
mod limits;
mod list_conf;
mod list_state;
mod mode;
mod odt;
mod phase;
mod readers;
mod refusal;
mod reply;
mod store;

pub use entry::Entry;
pub use limits::Limits;
pub use list_conf::ListConf;
pub use refusal::{BadLimits, NoMemory, Refusal};
pub use reply::Reply;
pub use store::Store;
