//! The frames of one datagram are heard; a torn one spoils no later datagram.
ghost use Rattle.std.specs.Prelude.{◌≡◌, ◌≤◌, ◌⊎◌, false, length};
ghost use Rattle.session.specs.Standing.{given_by};
ghost use Rattle.slave.specs.Hearing.{may_hear};
ghost use Rattle.slave.specs.Receiving.{HearsDatagram};

use crate::Slave;
use crate::stream::MasterStream;
use std::alloc::Global;

/// Has the slave hear the packets of the frames of one datagram, and returns how many bytes it
/// took: all, or those up to the end of a frame behind which no reply finds room. The others are
/// still the caller's, who passes them again once some replies were sent. A slave that is spent
/// takes none. Clock and memory are those of `Slave::hear`.
///
/// A part of a frame at the end, or a LEN that is 0 or over MAX_CTO, drops what is left of this
/// datagram, and nothing else: the next one is heard from its first byte.
pub fn datagram(
    slave: &mut Slave,
    alloc: Global,
    bytes: &[u8],
    clock: u32,
    memory: &[&[u8]],
) -> usize
    ensures hears { HearsDatagram slave.old slave.new (given_by clock memory.now)
        bytes.now result }
    ensures within { result ≤ length bytes.now }
    ensures all { (result ≡ length bytes.now) ⊎ (may_hear slave.new ≡ false) }
{
    let mut stream = MasterStream::new(slave);
    match stream.read(slave, alloc, bytes, clock, memory) {
        Ok(taken) => taken,
        Err(_) => bytes.len(),
    }
}
