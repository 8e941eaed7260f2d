//! What a caller puts beside the threads of a run: it holds steps, and hears of pumps.
use transmitter::Pumped;

/// What stands beside the threads of a run, and may hold a step back. No clause depends on it.
pub trait Gate {
    /// Stands in front of a step of an event channel, and may hold it. The steps of each channel
    /// are counted from 0.
    fn before(&self, channel: u8, step: usize);

    /// Follows the step.
    fn answered(&self, channel: u8, step: usize);

    /// Follows each pump that answered Ok, once, with its answer.
    fn pumped(&self, pumped: &Pumped);
}

/// A gate that does nothing.
#[derive(Clone, Copy, Debug, PartialEq, Eq)]
pub struct NoGate;

impl Gate for NoGate {
    fn before(&self, _channel: u8, _step: usize) {}

    fn answered(&self, _channel: u8, _step: usize) {}

    fn pumped(&self, _pumped: &Pumped) {}
}
