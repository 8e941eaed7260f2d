//! The samples of the DAQ lists of a captured session.
#![tactic(auto)]

mod counter_steps;
mod kept_samples;
mod last_command;
pub mod laws;
mod list_samples;
mod list_state;
mod list_states;
mod mark;
mod places;
mod sample_sink;
mod slave_samples;
mod stamps;
mod taken;
mod tallies;

pub use counter_steps::{CounterStep, counter_step};
pub use kept_samples::{KeptSample, KeptSamples};
pub use list_samples::ListSamples;
pub use mark::Mark;
pub use sample_sink::SampleSink;
pub use slave_samples::SlaveSamples;
pub use taken::Taken;
pub use tallies::Tallies;
