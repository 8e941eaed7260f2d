//! What the capture's clock says of two timestamps.

/// What the capture's clock says of two timestamps.
#[derive(Clone, Copy)]
pub struct Passed {
    /// How many picoseconds a tick is.
    pub tick: u64,
    /// How many are between the captures.
    pub picoseconds: u128,
}
