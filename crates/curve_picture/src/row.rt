//! What is gathered of one measurement.
ghost use Rattle.std.specs.Prelude.{◌≡◌, ℕ, List, ◌+◌, ◌-◌, ◌*◌, ◌/◌, ◌^◌, ◌<◌, ◌≤◌};
ghost use Rattle.curve_picture.specs.Curves.{IsKept, IsRowOf, finite};
ghost use Rattle.curve_picture.specs.Inner.{doubled_row, fresh_row, merged, noted};
ghost use Rattle.curve_picture.specs.Values.{Seen};

use crate::bin::{Bin, joined};
use crate::point::Point;
use crate::stretch::Stretch;
use sample_picture::BINS;

/// How many times as far apart as on average two neighbouring values may be, to be joined.
const NEAR: u64 = 4;

/// The values of one measurement: how many there are, which stops at `u64::MAX`, the first and the
/// last place, and the bins.
#[derive(Drop)]
pub struct Row {
    pub values: u64,
    pub first: u64,
    pub last: u64,
    pub bins: [Bin; 1024],
}

impl Row {
    /// A row of no value.
    pub fn new() -> Row
        ensures { result ≡ fresh_row }
    {
        Row {
            values: 0,
            first: u64::MAX,
            last: 0,
            bins: [Bin::EMPTY; 1024],
        }
    }

    /// A value at its place, whose bin has this slot; `lost`: samples were dropped before it.
    pub fn note(&mut self, slot: usize, point: Point, lost: bool)
        requires { slot < 1024 }
        ensures { self.new ≡ noted self.old slot point lost }
    {
        self.values = self.values.saturating_add(1);
        self.first = point.at.min(self.first);
        self.last = point.at.max(self.last);
        self.bins[slot] = Bin::of(point, lost).with(self.bins[slot]);
    }

    /// Each bin has twice as many places: of `count` bins from this one on.
    pub fn double(&mut self, from: u64, count: u64)
        requires { from + count ≤ 2 ^ 64 }
        ensures { self.new ≡ doubled_row from count self.old }
    {
        self.bins = merged(&self.bins, from, count);
    }

    /// The least and the greatest of all values that are drawn, if there are any, and those at the
    /// first and the last place.
    pub fn whole(&self) -> Option<Stretch>
        ensures { (width : ℕ) → (seen : List Seen) → IsRowOf width self.now seen
            → IsKept result (finite seen) }
    {
        let mut whole = None;
        for bin in self.bins.iter() {
            whole = joined(bin.curve, whole);
        }
        whole
    }

    /// How far apart two neighbouring values may be, to be joined: 4 times as far as the values of
    /// the row are on average.
    pub fn reach(&self) -> u64
        ensures { 1 < self.now.values → 4 * (self.now.last - self.now.first) < 2 ^ 64
            → result ≡ 4 * (self.now.last - self.now.first) / (self.now.values - 1) }
    {
        if self.values < 2 {
            return 0;
        }
        self.last.saturating_sub(self.first).saturating_mul(NEAR) / (self.values - 1)
    }
}

/// The slots when each bin has twice as many places: of `count` bins from this one on.
#[inline(never)]
fn merged(bins: &[Bin; 1024], from: u64, count: u64) -> [Bin; 1024]
    requires { from + count ≤ 2 ^ 64 }
    ensures { result ≡ merged bins.now from count }
{
    let mut wide = [Bin::EMPTY; 1024];
    for k in 0..count {
        let bin = from + k;
        let slot = (bin / 2 % BINS) as usize;
        wide[slot] = bins[(bin % BINS) as usize].with(wide[slot]);
    }
    wide
}
