//! The bytes of a stream are put together to packets, and the slave hears these.
ghost use Rattle.std.specs.Prelude.{◌≡◌, ◌<◌, ◌≤◌, ◌⊎◌, [], ◌∷◌, true, false, length, take};
ghost use Rattle.std.specs.Prelude.{Ok, IfOk, OnOk, IsErr, OnErr};
ghost use Rattle.session.specs.Standing.{given_by};
ghost use Rattle.frame_writer.specs.Reading.{IsBadAfter, ReaderStandsAfter};
ghost use Rattle.slave.specs.Hearing.{may_hear};
ghost use Rattle.slave.specs.Receiving.{BreaksOff, LosesStream, Receives};

use crate::Slave;
use frame_writer::{BadFrame, Fed, FrameReader};
use std::alloc::Global;
use std::marker::Model;

/// The bytes of a master that come over a stream, in whatever pieces.
///
/// Contracts speak of it as of its frame reader.
#[derive(Drop)]
pub struct MasterStream {
    reader: FrameReader,
}

impl Model for MasterStream {
    ghost use Rattle.frame_writer.specs.Reading.{ReaderState};

    ghost Value = { ReaderState };

    ghost view = { λ s. s.reader };
}

impl MasterStream {
    /// A stream to this slave, of which no byte came.
    pub fn new(slave: &Slave) -> MasterStream
        ensures fresh { ReaderStandsAfter result [] [] }
        ensures stays_open { result.closed ≡ false }
        ensures max_cto { result.max_cto ≡ slave.now.session.profile.max_cto }
    {
        MasterStream {
            reader: FrameReader::new(slave.session.max_cto()),
        }
    }

    /// Whether a frame was bad. Nothing is taken any more then.
    pub fn is_closed(&self) -> bool
        ensures { result ≡ self.now.closed }
    {
        self.reader.is_closed()
    }

    /// Takes bytes, and has the slave hear the packet of each frame that they end; and returns how
    /// many it took: all, or those up to the end of a frame behind which no reply finds room. The
    /// others are still the caller's, who passes them again once some replies were sent. If there
    /// is no room for a reply, or the slave is spent, nothing is taken, not even bytes that end no
    /// frame. Clock and memory are those of `Slave::hear`.
    ///
    /// Refused if a frame is bad (LEN 0 or over MAX_CTO), as soon as its LEN is taken. The packets
    /// before it were heard, and the slave disconnects: what waits is still sent. From then on
    /// every call is refused, and changes nothing.
    pub fn receive(
        &mut self,
        slave: &mut Slave,
        alloc: Global,
        bytes: &[u8],
        clock: u32,
        memory: &[&[u8]],
    ) -> Result<usize, BadFrame>
        ensures ok { IfOk result (λ n. Receives self.old self.new slave.old slave.new
            (given_by clock memory.now) (take n bytes.now)) }
        ensures within { IfOk result (λ n. n ≤ length bytes.now) }
        ensures all { IfOk result (λ n. (n ≡ length bytes.now)
            ⊎ (may_hear slave.new ≡ false)) }
        ensures ends { IfOk result (λ n. (n ≡ length bytes.now)
            ⊎ ((n ≡ 0) ⊎ (self.new.held ≡ []))) }
        ensures stays_open { OnOk result (self.new.closed ≡ false) }
        ensures no_room { self.old.closed ≡ false → may_hear slave.old ≡ false
            → (result ≡ Ok 0) × (self.new ≡ self.old) × (slave.new ≡ slave.old) }

        ensures bad { self.old.closed ≡ false → OnErr result (LosesStream self.old self.new
            slave.old slave.new (given_by clock memory.now) bytes.now) }
        ensures closed { self.old.closed ≡ true → IsErr result }
        ensures closed_stays { self.old.closed ≡ true
            → (self.new ≡ self.old) × (slave.new ≡ slave.old) }
    {
        if self.is_closed() {
            return Err(BadFrame);
        }
        match self.read(slave, alloc, bytes, clock, memory) {
            Ok(taken) => Ok(taken),
            Err(fault) => {
                slave.disconnect();
                Err(fault)
            }
        }
    }

    /// Takes bytes, and has the slave hear the packet of each frame that they end, as long as a
    /// reply finds room. The slave doesn't disconnect.
    pub(crate) fn read(
        &mut self,
        slave: &mut Slave,
        alloc: Global,
        bytes: &[u8],
        clock: u32,
        memory: &[&[u8]],
    ) -> Result<usize, BadFrame>
        requires is_open { self.old.closed ≡ false }
        ensures ok { IfOk result (λ n. Receives self.old self.new slave.old slave.new
            (given_by clock memory.now) (take n bytes.now)) }
        ensures within { IfOk result (λ n. n ≤ length bytes.now) }
        ensures all { IfOk result (λ n. (n ≡ length bytes.now)
            ⊎ (may_hear slave.new ≡ false)) }
        ensures ends { IfOk result (λ n. (n ≡ length bytes.now)
            ⊎ ((n ≡ 0) ⊎ (self.new.held ≡ []))) }
        ensures stays_open { OnOk result (self.new.closed ≡ false) }
        ensures no_room { may_hear slave.old ≡ false
            → (result ≡ Ok 0) × (self.new ≡ self.old) × (slave.new ≡ slave.old) }
        ensures bad { OnErr result (BreaksOff self.old self.new slave.old slave.new
            (given_by clock memory.now) bytes.now) }
    {
        let mut at = 0;
        for _ in 0..bytes.len() {
            if at == bytes.len() {
                return Ok(at);
            }
            if !slave.has_room() {
                return Ok(at);
            }
            at += self.step(slave, alloc, &bytes[at..], clock, memory)?;
        }
        Ok(at)
    }

    /// Takes bytes up to the end of the frame that they end, or else all of them, and has the slave
    /// hear the packet of that frame.
    fn step(
        &mut self,
        slave: &mut Slave,
        alloc: Global,
        bytes: &[u8],
        clock: u32,
        memory: &[&[u8]],
    ) -> Result<usize, BadFrame>
        requires room { may_hear slave.old ≡ true }
        ensures ok { IfOk result (λ n. Receives self.old self.new slave.old slave.new
            (given_by clock memory.now) (take n bytes.now)) }
        ensures within { IfOk result (λ n. n ≤ length bytes.now) }
        ensures some { 0 < length bytes.now → IfOk result (λ n. 0 < n) }
        ensures ends { IfOk result (λ n. (n ≡ length bytes.now) ⊎ (self.new.held ≡ [])) }
        ensures stays_open { OnOk result (self.new.closed ≡ false) }
        ensures bad { OnErr result (IsBadAfter self.old self.new bytes.now) }
        ensures err { OnErr result (slave.new ≡ slave.old) }
    {
        let Fed { taken, packet } = self.reader.feed(bytes)?;
        let Some(packet) = packet else {
            return Ok(taken);
        };
        let _ = slave.hear(alloc, packet.as_slice(), clock, memory);
        Ok(taken)
    }
}
