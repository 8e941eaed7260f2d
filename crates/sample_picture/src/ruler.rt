//! Where a place stands on the plot, and the round numbers below it.
ghost use Rattle.std.specs.Prelude.{◌<◌, ◌≤◌};

/// The width of the plot, in tenths of a unit.
pub const PLOT: u64 = 7200;

/// Beyond this distance the low 14 bits are left out, so that no product overflows.
const FINE: u64 = 1125899906842624;

/// The places of the plot's left and right end.
#[derive(Clone, Copy, Debug)]
pub struct Ruler {
    pub first: u64,
    pub last: u64,
    pub ghost ordered: { first ≤ last },
}

impl Ruler {
    /// From the left end to a place, in tenths of a unit; places beyond an end are at that end.
    pub fn x(&self, at: u64) -> u64
        ensures { result ≤ 7200 }
    {
        let whole = self.last - self.first;
        let part = at.max(self.first).min(self.last) - self.first;
        if whole == 0 {
            0
        } else if whole < FINE {
            part * PLOT / whole
        } else {
            (part / 16384) * PLOT / (whole / 16384)
        }
    }
}

/// The least of 1, 2, 5, 10, 20, 50, 100 and so on that is no less; the greatest one beyond.
pub fn round_step(least: u64) -> u64
    ensures { 0 < result }
{
    let mut ten = 1u64;
    for _ in 0..19 {
        for factor in [1, 2, 5] {
            let step = ten.saturating_mul(factor);
            if step >= least && step > 0 {
                return step;
            }
        }
        ten = ten.saturating_mul(10);
    }
    ten.max(1)
}
