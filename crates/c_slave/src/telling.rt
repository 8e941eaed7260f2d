//! An account is told: in all, of the last measurements alone, and of all before them.

ghost use Rattle.std.specs.Prelude.{◌≡◌, ◌<◌, ◌≤◌, Some, length, slice_get};
ghost use Rattle.slave_channels.specs.declared.sums.TheConstants.{LAST as OWN};
ghost use Rattle.xcp_base.specs.declared.limits.TheConstants.{MAX_LISTS as MOST_LISTS};
ghost use Rattle.c_slave.specs.Ends.{HasLines, IsLineIn};
ghost use Rattle.c_slave.specs.Measurements.{IsLineOf, IsOfMeasurement, IsOfOlder};
ghost use Rattle.c_slave.specs.Measurements.{IsOlderLine, TellsEach};

use crate::measurements_out::{LINES, MeasurementOut, MeasurementsOut};
use daq_engine::ListReport;
use slave::Complete;
use slave_channels::{Account, LAST};
use xcp_base::ListId;
use xcp_base::limits::MAX_LISTS;

/// A line before it is told.
const NO_LINE: ListReport = ListReport {
    list: 0,
    due: 0,
    written: 0,
    dropped: 0,
    left: 0,
};

/// Tells the lines of an account, each at the place of its list.
pub(crate) fn tell(account: &Account, lines: &mut [ListReport])
    requires room { MOST_LISTS ≤ length lines.old }
    ensures { HasLines (IsLineIn account.now) MOST_LISTS lines.old lines.new }
{
    for l in 0..MAX_LISTS {
        let list = ListId::at(l);
        lines[list.index()] = account.line(list);
    }
}

/// The line of a list in one of the last measurements; of zeros, if there is none of this number.
fn line_of(account: &Account, number: u64, l: ListId) -> ListReport
    ensures { IsLineOf account.now number l result }
{
    match account.line_in(number, l) {
        Some(line) => line,
        None => NO_LINE,
    }
}

/// Tells the lines of one of the last measurements, each at the place of its list.
fn tell_one(account: &Account, number: u64, lines: &mut [ListReport])
    requires room { MOST_LISTS ≤ length lines.old }
    ensures { HasLines (IsLineOf account.now number) MOST_LISTS lines.old lines.new }
{
    for l in 0..MAX_LISTS {
        let list = ListId::at(l);
        lines[list.index()] = line_of(account, number, list);
    }
}

/// Tells the lines of all measurements before the last, each at the place of its list.
fn tell_older(account: &Account, lines: &mut [ListReport])
    requires room { MOST_LISTS ≤ length lines.old }
    ensures { HasLines (IsOlderLine account.now) MOST_LISTS lines.old lines.new }
{
    for l in 0..MAX_LISTS {
        let list = ListId::at(l);
        lines[list.index()] = account.older_line(list);
    }
}

/// What is told of a measurement.
fn measurement(account: &Account, number: u64, whole: bool) -> MeasurementOut
    ensures { IsOfMeasurement account.now number whole result }
{
    let mut lines = [NO_LINE; LINES];
    tell_one(account, number, &mut lines);
    MeasurementOut {
        number,
        whole,
        lines,
    }
}

/// What is told of all measurements before the last.
fn older(account: &Account, many: u64, whole: bool) -> MeasurementOut
    ensures { IsOfOlder account.now many whole result }
{
    let mut lines = [NO_LINE; LINES];
    tell_older(account, &mut lines);
    MeasurementOut {
        number: many,
        whole,
        lines,
    }
}

/// Whether all parts of one of the last measurements are there.
fn has_all(complete: &Complete, i: usize) -> bool
    requires many { length complete.now.last ≡ OWN }
    requires place { i < OWN }
    ensures { slice_get complete.now.last i ≡ Some result }
{
    complete.last[i]
}

/// What is told of the last measurements, and of all before them.
pub(crate) fn each_of(account: &Account, complete: &Complete) -> MeasurementsOut
    requires many { length complete.now.last ≡ OWN }
    ensures { TellsEach account.now complete.now result }
{
    let end = account.end();
    let first = end.saturating_sub(LAST);
    MeasurementsOut {
        count: (end - first) as usize,
        last: [
            measurement(account, first, has_all(complete, 0)),
            measurement(account, first.saturating_add(1), has_all(complete, 1)),
            measurement(account, first.saturating_add(2), has_all(complete, 2)),
            measurement(account, first.saturating_add(3), has_all(complete, 3)),
        ],
        older: older(account, first, complete.older),
    }
}
