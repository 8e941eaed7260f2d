//! The sums of one DAQ list, and how the line of an account is added to them.
ghost use Rattle.std.specs.Prelude.{◌≡◌};
ghost use Rattle.slave_channels.specs.AccountInner.{joined, moved, plus};

use daq_engine::ListReport;
/// The sums of the lines of one DAQ list number, modulo 2^64.
#[derive(Clone, Copy)]
pub struct Totals {
    /// The samples that were due.
    pub due: u64,
    /// Those that were written.
    pub written: u64,
    /// Those that found no room in a ring.
    pub dropped: u64,
    /// Those that were accepted and not written.
    pub left: u64,
}

/// The totals before a line was added.
pub const NONE: Totals = Totals {
    due: 0,
    written: 0,
    dropped: 0,
    left: 0,
};

impl Totals {
    /// The same with one line more.
    pub fn plus(self, line: ListReport) -> Totals
        ensures { result ≡ plus self line }
    {
        Totals {
            due: self.due.wrapping_add(line.due),
            written: self.written.wrapping_add(line.written),
            dropped: self.dropped.wrapping_add(line.dropped),
            left: self.left.wrapping_add(line.left),
        }
    }

    /// The sums of two.
    pub fn joined(self, other: Totals) -> Totals
        ensures { result ≡ joined self other }
    {
        Totals {
            due: self.due.wrapping_add(other.due),
            written: self.written.wrapping_add(other.written),
            dropped: self.dropped.wrapping_add(other.dropped),
            left: self.left.wrapping_add(other.left),
        }
    }

    /// The same if so many of those written are left after all.
    pub fn moved(self, n: u64) -> Totals
        ensures { result ≡ moved self n }
    {
        Totals {
            written: self.written.wrapping_sub(n),
            left: self.left.wrapping_add(n),
            ..self
        }
    }
}
