//! Samplers: at each trigger of an event channel, the samples of the DAQ lists that are due go into
//! its ring.
#![tactic(auto)]

mod at_trigger;
mod counts;
mod due_sample;
mod faults;
pub mod laws;
mod lists;
mod moment;
mod offering;
mod opening;
mod polled;
mod polling;
mod sampler;
mod sampler_end;
mod taken;
mod track;

pub use counts::ListCounts;
pub use faults::{MemoryFault, StartFault, StopFault, TriggerFault};
pub use polled::Polled;
pub use sampler::Sampler;
pub use sampler_end::SamplerEnd;
pub use taken::Taken;
