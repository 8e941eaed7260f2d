//! A picture of curves: what its axis counts.

use measured_values::Tick;

/// What the places of values are.
#[derive(Clone, Copy, Debug, PartialEq, Eq)]
pub enum CurveAxis {
    /// Ticks of this length: the axis is in seconds.
    Seconds(Tick),
    /// Ticks of a length that isn't known.
    Ticks,
    /// The sample's number.
    Samples,
}
