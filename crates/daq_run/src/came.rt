//! What can come of a step: of a trigger, of a start or a stop, of a pump.
use crate::cause::Cause;
use sampler::Taken;
use transmitter::{PumpFault, Pumped};

/// What came of a step.
#[derive(Clone, Copy, Debug, PartialEq, Eq)]
pub enum Came {
    /// A trigger was taken.
    Taken(Taken),
    /// A DAQ list was started or stopped.
    Switched,
    /// The sampler refused it.
    Refused(Cause),
    /// The rings were pumped.
    Pumped(Pumped),
    /// The pump stopped.
    Stuck(PumpFault),
}
