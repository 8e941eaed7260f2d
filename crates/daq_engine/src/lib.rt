//! The engine: it is opened over a store, and closed with an account of what was written.
#![tactic(auto)]

mod beside;
mod channel_fault;
mod channel_plans;
mod closing;
mod engine;
mod engine_opening;
mod faults;
mod filling;
mod finishing;
pub mod laws;
mod open_fault;
mod opening;
mod report;
mod ring;
mod unclosed;

pub use channel_fault::ChannelFault;
pub use channel_plans::plans_of;
pub use closing::{account, close};
pub use engine::Engine;
pub use engine_opening::engine_over;
pub use faults::CloseFault;
pub use finishing::{drain_and_close, finish_all};
pub use open_fault::OpenFault;
pub use opening::{open, open_bytes, open_channel, open_over, sampler_over};
pub use report::{ListReport, Report};
pub use ring::Ring;
pub use unclosed::Unclosed;
