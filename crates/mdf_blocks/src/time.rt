//! Points in time.
use crate::zone::Zone;

/// A point in time (ASAM MDF 4.1, HD and FH).
#[derive(Clone, Copy, Debug, PartialEq, Eq)]
pub struct Time {
    /// Nanoseconds since 1970-01-01.
    pub nanoseconds: u64,
    pub zone: Zone,
}
