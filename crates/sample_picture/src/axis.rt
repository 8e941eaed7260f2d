//! A picture of samples: what its axis counts.

/// What the places of samples are: the word below the axis.
#[derive(Clone, Copy, Debug, PartialEq, Eq)]
pub enum Axis {
    /// Ticks of the timestamp.
    Ticks,
    /// The sample's number.
    Samples,
}

impl Axis {
    /// The word below the axis.
    pub fn word(self) -> &'static str {
        match self {
            Axis::Ticks => "time in ticks",
            Axis::Samples => "number of the sample",
        }
    }
}
