//! The refusals of a sampler, in one type for all steps that ask something of it.
use sampler::{StartFault, StopFault, TriggerFault};
use thiserror::Error;

/// Why the sampler of an event channel refused what a step asked of it.
#[derive(Clone, Copy, Debug, PartialEq, Eq, Error)]
pub enum Cause {
    /// A trigger.
    #[error("a trigger was refused: {0}")]
    Trigger(TriggerFault),
    /// The start of a DAQ list.
    #[error("a start was refused: {0}")]
    Start(StartFault),
    /// The stop of a DAQ list.
    #[error("a stop was refused: {0}")]
    Stop(StopFault),
}
