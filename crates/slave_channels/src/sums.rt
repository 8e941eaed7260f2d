//! The sums of one DAQ list: of each of the last four measurements, and of all before.
ghost use Rattle.std.specs.Prelude.{◌≡◌};
ghost use Rattle.slave_channels.specs.Accounts.{row};
ghost use Rattle.slave_channels.specs.AccountInner.{advanced, all_of, with_row};

use crate::totals::{NONE, Totals};

/// How many of the last measurements have sums of their own.
pub const LAST: u64 = 4;

/// The sums of one DAQ list number: of each of the last four measurements, and of all before.
#[derive(Clone, Copy)]
pub struct Sums {
    /// Of the last measurement.
    pub last: Totals,
    /// Of the one before it.
    pub second: Totals,
    /// Of the one before that.
    pub third: Totals,
    /// Of the one before that.
    pub fourth: Totals,
    /// Of all before these.
    pub older: Totals,
}

/// The sums before a line was added.
pub const NO_SUMS: Sums = Sums {
    last: NONE,
    second: NONE,
    third: NONE,
    fourth: NONE,
    older: NONE,
};

impl Sums {
    /// The totals of the measurement with so many behind it, or of all before the last four.
    pub fn row(self, behind: u64) -> Totals
        ensures value { result ≡ row behind self }
    {
        match behind {
            0 => self.last,
            1 => self.second,
            2 => self.third,
            3 => self.fourth,
            _ => self.older,
        }
    }

    /// The same with other totals there.
    pub fn with_row(self, behind: u64, totals: Totals) -> Sums
        ensures value { result ≡ with_row behind totals self }
    {
        match behind {
            0 => Sums {
                last: totals,
                ..self
            },
            1 => Sums {
                second: totals,
                ..self
            },
            2 => Sums {
                third: totals,
                ..self
            },
            3 => Sums {
                fourth: totals,
                ..self
            },
            _ => Sums {
                older: totals,
                ..self
            },
        }
    }

    /// The same behind which one measurement more begins.
    pub fn advanced(self) -> Sums
        ensures { result ≡ advanced self }
    {
        Sums {
            last: NONE,
            second: self.last,
            third: self.second,
            fourth: self.third,
            older: self.older.joined(self.fourth),
        }
    }

    /// The sums of the five.
    pub fn all(self) -> Totals
        ensures { result ≡ all_of self }
    {
        self.older
            .joined(self.fourth)
            .joined(self.third)
            .joined(self.second)
            .joined(self.last)
    }
}
