//! The slave of a handle is closed, and its account told.

ghost use Rattle.std.specs.Prelude.{◌≤◌, IfErr, OnOk, Some, length};
ghost use Rattle.xcp_base.specs.declared.limits.TheConstants.{MAX_LISTS as MOST_LISTS};
ghost use Rattle.c_slave.specs.Ends.{ClosesSlaveOf, MayClose, MayCloseHeld, StaysHeld};
ghost use Rattle.c_slave.specs.Ends.{StaysOpen, TellsAccount};
ghost use Rattle.slave_lending.specs.Lends.{NoneAway};

use crate::content::Content;
use crate::handle::Handle;
use crate::measurements_out::MeasurementsOut;
use crate::telling::{each_of, tell};
use c_engine::Status;
use daq_engine::ListReport;
use slave::Closed;
use slave_lending::LendingSlave;
use std::alloc::Global;
use xcp_base::limits::MAX_LISTS;

/// Closes a slave, and tells its account.
fn close(
    slave: LendingSlave,
    lines: &mut [ListReport],
    whole: &mut bool,
    each: &mut MeasurementsOut,
)
    requires none_away { NoneAway slave }
    requires room { MOST_LISTS ≤ length lines.old }
    ensures { TellsAccount slave
        (record { lines = lines.old; whole = whole.old; each = each.old })
        (record { lines = lines.new; whole = whole.new; each = each.new }) }
{
    let Closed {
        account,
        is_whole,
        complete,
    } = slave.close();
    tell(&account, lines);
    *each = each_of(&account, &complete);
    *whole = is_whole;
}

/// Whether a slave may be closed with so much room for lines, since no task is away; or why not.
fn may_close(slave: &mut LendingSlave, room: usize) -> Result<(), Status>
    ensures ok { OnOk result (MayClose slave.old slave.new room) }
    ensures err { IfErr result (StaysOpen slave.old slave.new room) }
{
    if room < MAX_LISTS as usize {
        return Err(Status::SmallBuffer);
    }
    if !slave.collect() {
        return Err(Status::Unfinished);
    }
    Ok(())
}

/// Whether what is held is a slave that may be closed with so much room for lines; or why not.
fn may_close_in(content: &mut Content, room: usize) -> Result<(), Status>
    ensures ok { OnOk result (MayCloseHeld content.old content.new room) }
    ensures err { IfErr result (StaysHeld (Some content.old) (Some content.new) room) }
{
    match content {
        Content::Slave(slave) => may_close(slave, room),
        _ => Err(Status::Empty),
    }
}

/// Closes the slave of a handle, and tells its account.
pub fn close_slave_by(
    alloc: Global,
    handle: &mut Handle,
    lines: &mut [ListReport],
    whole: &mut bool,
    each: &mut MeasurementsOut,
) -> Status
    ensures { ClosesSlaveOf handle.old.held handle.new.held
        (record { lines = lines.old; whole = whole.old; each = each.old })
        (record { lines = lines.new; whole = whole.new; each = each.new }) result }
{
    let Some(mut held) = handle.take(alloc) else {
        return Status::Empty;
    };
    if let Err(status) = may_close_in(held.as_mut(), lines.len()) {
        handle.put(alloc, held);
        return status;
    }
    match Box::into_inner(held) {
        Content::Slave(slave) => close(slave, lines, whole, each),
        _ => unreachable!(),
    }
    Status::Ok
}
