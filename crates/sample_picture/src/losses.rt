//! Where samples of a row were lost.
ghost use Rattle.std.specs.Prelude.{◌+◌, ◌^◌, ◌≤◌};

use crate::grid::Grid;
use crate::row::BINS;

/// The ends of bins that lie between a sample with the overload indication and the one before it in
/// its row: that of bin `b` is kept at its slot.
#[derive(Clone, Copy)]
pub struct Losses {
    ends: [bool; 1024],
}

impl Losses {
    /// No sample was lost.
    pub const NONE: Losses = Losses {
        ends: [false; 1024],
    };

    /// Samples were lost between two places.
    pub fn note(&mut self, grid: &Grid, from: u64, to: u64) {
        for bin in from.max(grid.first) / grid.width..to.min(grid.last) / grid.width {
            self.ends[(bin % BINS) as usize] = true;
        }
    }

    /// Each bin has twice as many places: of `count` bins from this one on. Only every other bin
    /// still ends where it did.
    pub fn double(&mut self, from: u64, count: u64)
        requires { from + count ≤ 2 ^ 64 }
    {
        let mut wide = [false; 1024];
        for k in 0..count {
            let bin = from + k;
            if bin % 2 == 1 {
                wide[(bin / 2 % BINS) as usize] = self.reach_over(bin);
            }
        }
        self.ends = wide;
    }

    /// Whether samples were lost from a bin to the next one.
    pub fn reach_over(&self, bin: u64) -> bool {
        self.ends[(bin % BINS) as usize]
    }
}

/// Doubles the bins in which samples were lost, of each row.
pub fn double_losses(losses: &mut [Losses], from: u64, count: u64)
    requires { from + count ≤ 2 ^ 64 }
{
    for row in losses.iter_mut() {
        row.double(from, count);
    }
}
