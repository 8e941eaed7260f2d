//! Which times rows have.

/// Which times rows have.
#[derive(Clone, Copy, Debug, PartialEq, Eq)]
pub enum Clocks {
    /// The time since the first sample.
    Slave,
    /// And the time at which the last packet of the sample was captured.
    SlaveAndCapture,
}
