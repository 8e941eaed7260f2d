//! What goes through a ring from a sampler to a transmitter, or to a slave: samples, and stop
//! markers among them.
use crate::sample::Sample;
use crate::stop_mark::StopMark;

/// What stands in the ring of an event channel.
#[derive(Debug, Drop)]
pub enum Item {
    /// A sample that was accepted.
    Sample(Sample),
    /// The place at which a DAQ list was stopped.
    Marker(StopMark),
}
