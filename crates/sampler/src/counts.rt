//! The counts of a DAQ list: samples due, accepted and dropped.
/// How often a DAQ list was due, and what became of its samples.
#[derive(Clone, Copy, Debug, PartialEq, Eq)]
pub struct ListCounts {
    /// The triggers at which it was due.
    pub due: u64,
    /// Those whose sample the ring accepted.
    pub accepted: u64,
    /// Those whose sample found no room and was dropped.
    pub dropped: u64,
}
