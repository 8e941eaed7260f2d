//! Which places the bins of all rows stand for.
ghost use Rattle.std.specs.Prelude.{◌≡◌, ◌/◌, ◌%◌, ◌^◌, ◌-◌, ◌<◌};
ghost use Rattle.sample_picture.specs.Scale.{IsFine, IsNear};

use crate::row::BINS;

/// The width of a bin in places, and the least and the greatest place of all samples.
///
/// Bin `b` has the places from `b * width`; it is kept at the slot `b % BINS` of each row. The
/// bins of the samples are fewer than `BINS` apart, so no two of them have one slot. No bin has
/// more places than that asks for.
#[derive(Clone, Copy, Debug)]
pub struct Grid {
    pub width: u64,
    pub first: u64,
    pub last: u64,
    pub ghost positive: { 0 < width },
    pub ghost near: { IsNear width first last },
    pub ghost fine: { IsFine width first last },
}

impl Grid {
    /// The grid of no sample.
    pub fn new() -> Grid
        ensures width { result.width ≡ 1 }
        ensures first { result.first ≡ 2 ^ 64 - 1 }
        ensures last { result.last ≡ 0 }
    {
        Grid {
            width: 1,
            first: u64::MAX,
            last: 0,
        }
    }

    /// The slot of a place.
    pub fn slot(&self, at: u64) -> usize
        ensures { result ≡ at / self.now.width % 1024 }
    {
        (at / self.width % BINS) as usize
    }
}
