//! The number and the time of a sample in its DAQ list.
/// Where a sample stands.
#[derive(Clone, Copy, Debug, PartialEq, Eq)]
pub struct Spot {
    /// Its number in its list, from 0, modulo 2^64.
    pub number: u64,
    /// Its time, in ticks, if it has a timestamp.
    pub time: Option<u64>,
}

impl Spot {
    /// The first, without a timestamp.
    pub const FIRST: Spot = Spot {
        number: 0,
        time: None,
    };
}
