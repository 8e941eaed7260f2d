//! Where a value stands in its row.
ghost use Rattle.std.specs.Prelude.{◌≡◌, ◌≤◌};

use crate::stretch::Stretch;
use std::num::saturating_f64_to_u64;

/// The height of a curve, in tenths of a unit.
pub const TALL: u64 = 640;
/// The same as a number.
const TALL_NUMBER: f64 = 640.0;

/// The least and the greatest value of a row: the lower and the upper end of its curve.
#[derive(Clone, Copy)]
pub struct Heights {
    pub least: f64,
    pub greatest: f64,
}

impl Heights {
    /// The heights of a row whose values are these.
    pub fn of(whole: &Stretch) -> Heights
        ensures least { result.least ≡ whole.now.least }
        ensures greatest { result.greatest ≡ whole.now.greatest }
    {
        Heights {
            least: whole.least,
            greatest: whole.greatest,
        }
    }

    /// From the upper end down to a value, in tenths of a unit. If all values are the same, it is
    /// the middle.
    pub fn y(&self, value: f64) -> u64
        ensures { result ≤ 640 }
    {
        // Halves, so that no difference is infinite.
        let whole = self.greatest / 2.0 - self.least / 2.0;
        let part = self.greatest / 2.0 - value / 2.0;
        if whole > 0.0 {
            saturating_f64_to_u64(part / whole * TALL_NUMBER + 0.5).min(TALL)
        } else {
            TALL / 2
        }
    }

    /// Whether all values are the same.
    pub fn is_flat(&self) -> bool {
        self.greatest <= self.least
    }
}
