//! What the samples of a group are ordered by.
/// What a master channel counts (ASAM MDF 4.1, CN: cn_sync_type).
#[derive(Clone, Copy, Debug, PartialEq, Eq)]
pub enum Axis {
    /// Seconds since the start of the measurement.
    Time,
    /// The numbers of the samples.
    Index,
}
