//! What is gathered of one DAQ list.
ghost use Rattle.std.specs.Prelude.{◌≡◌, ◌+◌, ◌^◌, ◌<◌, ◌≤◌};
ghost use Rattle.sample_picture.specs.Inner.{doubled_row, fresh_row, merged, noted};

use crate::mark::Mark;

/// The bins of a row.
pub const BINS: u64 = 1024;

/// The samples of one DAQ list: their totals, which stop at `u64::MAX`, and their bins.
#[derive(Drop)]
pub struct Row {
    pub list: u8,
    pub channel: u8,
    pub samples: u64,
    pub overloads: u64,
    pub first: u64,
    pub last: u64,
    pub bins: [Mark; 1024],
}

impl Row {
    /// A row of no sample.
    pub fn new(list: u8, channel: u8) -> Row
        ensures { result ≡ fresh_row list channel }
    {
        Row {
            list,
            channel,
            samples: 0,
            overloads: 0,
            first: u64::MAX,
            last: 0,
            bins: [Mark::Empty; 1024],
        }
    }

    /// A sample at a place, whose bin has this slot.
    pub fn note(&mut self, slot: usize, at: u64, overload: bool)
        requires { slot < 1024 }
        ensures { self.new ≡ noted self.old slot at overload }
    {
        self.samples = self.samples.saturating_add(1);
        if overload {
            self.overloads = self.overloads.saturating_add(1);
        }
        self.first = at.min(self.first);
        self.last = at.max(self.last);
        self.bins[slot] = Mark::of(overload).with(self.bins[slot]);
    }

    /// Each bin has twice as many places: of `count` bins from this one on.
    pub fn double(&mut self, from: u64, count: u64)
        requires { from + count ≤ 2 ^ 64 }
        ensures { self.new ≡ doubled_row from count self.old }
    {
        self.bins = merged(&self.bins, from, count);
    }
}

/// The slots when each bin has twice as many places: of `count` bins from this one on.
fn merged(bins: &[Mark; 1024], from: u64, count: u64) -> [Mark; 1024]
    requires { from + count ≤ 2 ^ 64 }
    ensures { result ≡ merged bins.now from count }
{
    let mut wide = [Mark::Empty; 1024];
    for k in 0..count {
        let bin = from + k;
        let slot = (bin / 2 % BINS) as usize;
        wide[slot] = bins[(bin % BINS) as usize].with(wide[slot]);
    }
    wide
}
