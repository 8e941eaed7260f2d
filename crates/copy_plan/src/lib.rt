//! Copy plans: from a memory image to the packets of a sample of one DAQ list.
#![tactic(auto)]

mod fill;
mod frames;
pub mod laws;
mod plan;
mod span;
mod spans;

pub use frames::sample_len;
pub use plan::{CopyPlan, PlanFault};
