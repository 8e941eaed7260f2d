//! What a transport does with a slave: it sends what waits, or refuses it; and what came back of
//! measurements is collected.
ghost use Rattle.std.specs.Prelude.{◌+◌, ◌*◌, ◌≤◌, [], ℕ, List, OnOk};
ghost use Rattle.xcp_base.specs.declared.limits.TheConstants.{MAX_CHANNELS};
ghost use Rattle.slave.specs.Taking.{most_taken};
ghost use Rattle.session_file.specs.Playing.{Advances, sending};
ghost use Rattle.session_file.specs.declared.limits.TheConstants.{ROOM};

use crate::limits::ROOM;
use crate::parts::Parts;
use frame_writer::{Out, VecOut};
use slave::Slave;
use std::alloc::AllocError;
use xcp_base::limits::MAX_CHANNELS;

/// The most parts of measurements that are collected in a row at one event channel: more than can
/// be out.
const MOST_PARTS: usize = 4;

/// Takes items off the rings, and sends as many of the frames that wait as find room in so many
/// bytes.
pub fn send(slave: &mut Slave, out: &mut VecOut, room: usize) -> Result<(), AllocError>
    requires few { room ≤ ROOM }
    ensures sends { OnOk result (Advances (most_taken + 1)
        (sending slave.old out.old.contents) (sending slave.new out.new.contents) []) }
{
    slave.take();
    let mut buffer = [0; ROOM];
    let shown = &mut buffer[..room];
    let len = slave.peek(shown);
    let Ok(_) = out.put(&shown[..len]) else {
        return Err(AllocError);
    };
    slave.sent();
    Ok(())
}

/// Takes items off the rings, and shows the datagram that `send` sends to a transport that refuses
/// it.
pub fn lose(slave: &mut Slave)
    ensures shows { (sent : List ℕ) → Advances most_taken
        (sending slave.old sent) (sending slave.new sent) [] }
{
    slave.take();
    let mut buffer = [0; ROOM];
    let _ = slave.peek(&mut buffer);
}

/// Collects what came back of measurements at all event channels.
pub fn collect(slave: &mut Slave, parts: &mut Parts) -> Result<(), AllocError>
    ensures collects { OnOk result ((sent : List ℕ) → Advances (4 * MAX_CHANNELS)
        (sending slave.old sent) (sending slave.new sent) []) }
{
    for c in 0..MAX_CHANNELS as usize {
        collect_at(slave, c, parts)?;
    }
    Ok(())
}

/// The same at one event channel.
fn collect_at(slave: &mut Slave, c: usize, parts: &mut Parts) -> Result<(), AllocError>
    ensures collects { OnOk result ((sent : List ℕ) → Advances 4
        (sending slave.old sent) (sending slave.new sent) []) }
{
    let mut found = 0;
    while found < MOST_PARTS {
        let Some(finished) = slave.take_back(c) else {
            return Ok(());
        };
        parts.add(&finished)?;
        found += 1;
    }
    Ok(())
}
