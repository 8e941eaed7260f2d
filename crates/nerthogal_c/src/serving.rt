//! The calls of a slave.

ghost use Rattle.std.specs.Prelude.{◌≡◌};
ghost use Rattle.c_engine.specs.Statuses.{number_of};
ghost use Rattle.c_engine.specs.declared.status.Status.{Status as StatusOf};
ghost use Rattle.c_slave.specs.Bytes.{HangsUpSlave, HearsDatagrams, PeeksSlave, Receives};
ghost use Rattle.c_slave.specs.Bytes.{SendsSlave, given_by};
ghost use Rattle.c_slave.specs.Ends.{ClosesSlaveOf};
ghost use Rattle.c_slave.specs.Openings.{OpensSlave};
ghost use Rattle.c_slave.specs.States.{TellsState};
ghost use Rattle.c_slave.specs.Tasks.{GivesTask};

use c_slave::{
    EventIn, Handle, MeasurementsOut, ProfileIn, SegmentIn, StateOut, close_slave_by, datagram_by,
    give_task, hang_up_by, open_slave, peek_by, receive_by, sent_by, state_by,
};
use daq_engine::ListReport;
use std::alloc::Global;

/// Opens a slave with the profile, the segments of memory, the event channels and the A2L file that
/// are asked for, in an empty handle. All are copied.
///
/// Refused first if the handle isn't empty; then if the profile is out of a limit or for lack of
/// memory, in either order.
#[unsafe(no_mangle)]
pub extern "C" fn ng_slave_open(
    alloc: Global,
    profile: &ProfileIn,
    segments: &[SegmentIn],
    events: &[EventIn],
    a2l: &[u8],
    slave: &mut Handle,
) -> u32
    ensures { (status : StatusOf) × (result ≡ number_of status)
        × OpensSlave slave.old.held slave.new.held
        profile.now segments.now events.now a2l.now status }
{
    open_slave(alloc, profile, segments, events, a2l, slave).number()
}

/// Hands the task of event channel `channel` out, into an empty handle.
///
/// Refused in this order: a task's handle that isn't empty, no slave, no such event channel, a
/// task that was handed out before, lack of memory.
#[unsafe(no_mangle)]
pub extern "C" fn ng_slave_task(
    alloc: Global,
    slave: &mut Handle,
    channel: u16,
    task: &mut Handle,
) -> u32
    ensures { (status : StatusOf) × (result ≡ number_of status)
        × GivesTask slave.old.held slave.new.held channel task.old.held task.new.held status }
{
    give_task(alloc, slave, channel, task).number()
}

/// Takes bytes of a master's stream, and answers each packet; how many it took is told. What reads
/// memory without a DAQ list reads it off `memory`, a slice for each segment as it is now, in their
/// order; one that is left out, or that has another length than its segment, isn't there.
///
/// Refused in this order: no slave, a frame whose LEN is 0 or over MAX_CTO, in these bytes or
/// earlier.
#[unsafe(no_mangle)]
pub extern "C" fn ng_slave_receive(
    alloc: Global,
    slave: &mut Handle,
    bytes: &[u8],
    clock: u32,
    memory: &[&[u8]],
    taken: &mut usize,
) -> u32
    ensures { (status : StatusOf) × (result ≡ number_of status)
        × Receives slave.old.held slave.new.held bytes.now (given_by clock memory.now)
        taken.old taken.new status }
{
    receive_by(alloc, slave, bytes, clock, memory, taken).number()
}

/// Takes the frames of a datagram, and answers each packet; how many bytes it took is told. Of
/// `memory` it is as with a stream.
///
/// Refused if there is no slave.
#[unsafe(no_mangle)]
pub extern "C" fn ng_slave_datagram(
    alloc: Global,
    slave: &mut Handle,
    bytes: &[u8],
    clock: u32,
    memory: &[&[u8]],
    taken: &mut usize,
) -> u32
    ensures { (status : StatusOf) × (result ≡ number_of status)
        × HearsDatagrams slave.old.held slave.new.held bytes.now (given_by clock memory.now)
        taken.old taken.new status }
{
    datagram_by(alloc, slave, bytes, clock, memory, taken).number()
}

/// The transport was lost: all lists stop, no master is connected, and what waits is thrown away.
///
/// Refused if there is no slave.
#[unsafe(no_mangle)]
pub extern "C" fn ng_slave_hang_up(slave: &mut Handle) -> u32
    ensures { (status : StatusOf) × (result ≡ number_of status)
        × HangsUpSlave slave.old.held slave.new.held status }
{
    hang_up_by(slave).number()
}

/// Puts as many whole frames that wait as find room into the front of the buffer, and their length
/// in bytes into `len`.
///
/// Refused in this order: no slave, a buffer of less than 544 bytes.
#[unsafe(no_mangle)]
pub extern "C" fn ng_slave_peek(slave: &mut Handle, buffer: &mut [u8], len: &mut usize) -> u32
    ensures { (status : StatusOf) × (result ≡ number_of status)
        × PeeksSlave slave.old.held slave.new.held
        (record { buffer = buffer.old; len = len.old })
        (record { buffer = buffer.new; len = len.new }) status }
{
    peek_by(slave, buffer, len).number()
}

/// What the last peek showed was sent.
///
/// Refused if there is no slave.
#[unsafe(no_mangle)]
pub extern "C" fn ng_slave_sent(slave: &mut Handle) -> u32
    ensures { (status : StatusOf) × (result ≡ number_of status)
        × SendsSlave slave.old.held slave.new.held status }
{
    sent_by(slave).number()
}

/// Tells what a slave is about: whether a master is connected, whether some list runs, and how many
/// bytes wait.
///
/// Refused if there is no slave.
#[unsafe(no_mangle)]
pub extern "C" fn ng_slave_status(slave: &mut Handle, state: &mut StateOut) -> u32
    ensures { (status : StatusOf) × (result ≡ number_of status)
        × TellsState slave.old.held slave.new.held state.old state.new status }
{
    state_by(slave, state).number()
}

/// Closes a slave, and tells the account of its session: a line for each DAQ list that there may
/// be, and whether the account is whole; and the accounts of the last measurements alone. The
/// handle is empty then.
///
/// Refused in this order: no slave, room for less than 16 lines, a task that wasn't finished.
#[unsafe(no_mangle)]
pub extern "C" fn ng_slave_close(
    alloc: Global,
    slave: &mut Handle,
    lines: &mut [ListReport],
    whole: &mut bool,
    each: &mut MeasurementsOut,
) -> u32
    ensures { (status : StatusOf) × (result ≡ number_of status)
        × ClosesSlaveOf slave.old.held slave.new.held
        (record { lines = lines.old; whole = whole.old; each = each.old })
        (record { lines = lines.new; whole = whole.new; each = each.new }) status }
{
    close_slave_by(alloc, slave, lines, whole, each).number()
}
