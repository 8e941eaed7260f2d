//! A slave, its tasks and its transport, which play lines.
ghost use Rattle.std.specs.Prelude.{◌≡◌, ◌+◌, ◌*◌, ◌<◌, ◌≤◌, ◌∷◌, [], ℕ, IfOk, List, OnOk, map};
ghost use Rattle.std.specs.Prelude.{true, vec_items};
ghost use Rattle.segments.specs.Memory.{fits, parts};
ghost use Rattle.slave.specs.Standing.{SlaveState};
ghost use Rattle.session_file.specs.Inner.{line_data};
ghost use Rattle.session_file.specs.Lines.{master};
ghost use Rattle.session_file.specs.declared.limits.TheConstants.{ROOM};
ghost use Rattle.session_file.specs.Playing.{Advances, AreTasksOf, Does, lines_of, most_a_line};
ghost use Rattle.session_file.specs.Playing.{sending};
ghost use Rattle.tasks.specs.Tasks.{TaskEndState};
ghost use Rattle.xcp_base.specs.declared.limits.TheConstants.{MAX_CHANNELS};

use crate::Line;
use crate::limits::ROOM;
use crate::parts::Parts;
use crate::play_fault::PlayFault;
use crate::played::Played;
use crate::transport::{collect, lose, send};
use frame_ring::FrameSend;
use frame_writer::VecOut;
use segments::limits::MAX_READERS;
use segments::{Segment, fits};
use slave::Slave;
use slave_channels::Account;
use std::alloc::{AllocError, Global};
use tasks::{Task, TaskEnd};

/// A slave with its tasks, and what came of the lines so far.
#[derive(Drop)]
pub struct Player {
    pub(crate) slave: Slave,
    pub(crate) tasks: Vec<Task<FrameSend>>,
    pub(crate) segments: Vec<Segment>,
    pub(crate) clock: u32,
    pub(crate) memory: Vec<Vec<u8>>,
    pub(crate) out: VecOut,
    pub(crate) ends: Vec<usize>,
    pub(crate) parts: Parts,
    pub(crate) refused: u64,
}

/// Slices, lent.
fn lent<'a>(alloc: Global, slices: &'a [Vec<u8>]) -> Result<Vec<&'a [u8]>, AllocError>
    ensures { IfOk result (λ memory. parts memory.items ≡ map vec_items slices.now) }
{
    let mut memory = Vec::with_capacity(alloc, slices.len())?;
    for slice in slices {
        memory.push(slice.as_slice())?;
    }
    Ok(memory)
}

/// Slices, copied.
fn copied(alloc: Global, slices: &[Vec<u8>]) -> Result<Vec<Vec<u8>>, AllocError>
    ensures { IfOk result (λ copies. map vec_items copies.items ≡ map vec_items slices.now) }
{
    let mut copies = Vec::with_capacity(alloc, slices.len())?;
    for slice in slices {
        copies.push(slice.clone()?)?;
    }
    Ok(copies)
}

/// Whether the memory is that of a trigger of an event channel: a slice for each segment, and of
/// those that it may read their lengths.
fn is_memory_of(segments: &[Segment], channel: u8, memory: &[&[u8]]) -> bool
    ensures { result ≡ true → fits channel segments.now (parts memory.now) ≡ true }
{
    if channel as u16 >= MAX_READERS {
        return false;
    }
    fits(segments, channel, memory)
}

/// The task of an event channel takes a trigger, if there is one and the memory is one of it; and
/// returns whether it did.
fn is_taken(
    tasks: &mut [Task<FrameSend>],
    segments: &[Segment],
    channel: u8,
    memory: &[&[u8]],
    stamp: u32,
) -> bool
    ensures lines { lines_of tasks.new ≡ lines_of tasks.old }
    ensures fitting { result ≡ true → fits channel segments.now (parts memory.now) ≡ true }
{
    let c = channel as usize;
    if c >= tasks.len() {
        return false;
    }
    if !is_memory_of(segments, channel, memory) {
        return false;
    }
    tasks[c].trigger(memory, stamp).is_ok()
}

/// Finishes tasks, which give back what is left of what they hold: what is left of each.
fn finish_all(
    alloc: Global,
    tasks: Vec<Task<FrameSend>>,
) -> Result<Vec<TaskEnd<FrameSend>>, AllocError>
    ensures lines { IfOk result (λ ends.
        map (λ (end : TaskEndState FrameSend). end.ring) ends.items ≡ lines_of tasks.items) }
{
    let mut ends = Vec::with_capacity(alloc, tasks.len())?;
    for task in tasks {
        ends.push(task.finish())?;
    }
    Ok(ends)
}

impl Player {
    /// Plays a line.
    pub(crate) fn line(&mut self, alloc: Global, line: &Line) -> Result<(), AllocError>
        requires few { self.old.refused < 0xFFFFFFFFFFFFFFFF }
        ensures does { OnOk result (Does (sending self.old.slave self.old.out.contents)
            (sending self.new.slave self.new.out.contents)
            self.old.refused self.new.refused (line_data line.now ∷ [])) }
        ensures tasks { lines_of self.new.tasks.items ≡ lines_of self.old.tasks.items }
    {
        match line {
            Line::Master(packet) => self.master(alloc, packet),
            Line::Trigger {
                channel,
                stamp,
                memory,
            } => self.trigger(alloc, *channel, *stamp, memory),
            Line::Memory(memory) => self.put_memory(alloc, memory),
            Line::Send => self.send(ROOM),
            Line::SendIn(room) => self.send((*room as usize).min(ROOM)),
            Line::Lose => {
                self.lose();
                Ok(())
            }
            Line::HangUp => {
                self.hang_up();
                Ok(())
            }
        }
    }

    /// A packet of the master comes at the clock of the last trigger, with the memory of the last
    /// line of memory. What came back is collected
    /// before it, for the lines of each measurement.
    fn master(&mut self, alloc: Global, packet: &[u8]) -> Result<(), AllocError>
        requires few { self.old.refused < 0xFFFFFFFFFFFFFFFF }
        ensures does { OnOk result (Does (sending self.old.slave self.old.out.contents)
            (sending self.new.slave self.new.out.contents)
            self.old.refused self.new.refused (master packet.now ∷ [])) }
        ensures tasks_stay { self.new.tasks ≡ self.old.tasks }
    {
        collect(&mut self.slave, &mut self.parts)?;
        let memory = lent(alloc, &self.memory)?;
        if self.slave.hear(alloc, packet, self.clock, &memory) {
            return Ok(());
        }
        self.refused += 1;
        Ok(())
    }

    /// The next packets read this memory.
    fn put_memory(&mut self, alloc: Global, slices: &[Vec<u8>]) -> Result<(), AllocError>
        ensures slave_stays { self.new.slave ≡ self.old.slave }
        ensures out_stays { self.new.out ≡ self.old.out }
        ensures refused_stays { self.new.refused ≡ self.old.refused }
        ensures tasks_stay { self.new.tasks ≡ self.old.tasks }
    {
        self.memory = copied(alloc, slices)?;
        Ok(())
    }

    /// A task takes a trigger. One that isn't taken is refused, and changes nothing.
    fn trigger(
        &mut self,
        alloc: Global,
        channel: u8,
        stamp: u32,
        slices: &[Vec<u8>],
    ) -> Result<(), AllocError>
        requires few { self.old.refused < 0xFFFFFFFFFFFFFFFF }
        ensures slave_stays { self.new.slave ≡ self.old.slave }
        ensures out_stays { self.new.out ≡ self.old.out }
        ensures tasks { lines_of self.new.tasks.items ≡ lines_of self.old.tasks.items }
        ensures counted { self.old.refused ≤ self.new.refused }
        ensures most { self.new.refused ≤ self.old.refused + 1 }
    {
        let memory = lent(alloc, slices)?;
        if is_taken(&mut self.tasks, &self.segments, channel, &memory, stamp) {
            self.clock = stamp;
            return Ok(());
        }
        self.refused += 1;
        Ok(())
    }

    /// Sends as many of the frames that wait as find room in so many bytes, as one datagram.
    fn send(&mut self, room: usize) -> Result<(), AllocError>
        requires few { room ≤ ROOM }
        ensures sends { OnOk result (Advances most_a_line
            (sending self.old.slave self.old.out.contents)
            (sending self.new.slave self.new.out.contents) []) }
        ensures refused_stays { self.new.refused ≡ self.old.refused }
        ensures tasks_stay { self.new.tasks ≡ self.old.tasks }
    {
        let before = self.out.bytes().len();
        send(&mut self.slave, &mut self.out, room)?;
        let after = self.out.bytes().len();
        if after > before {
            self.ends.push(after)?;
        }
        Ok(())
    }

    /// A transport refuses what waits.
    fn lose(&mut self)
        ensures loses { Advances most_a_line
            (sending self.old.slave self.old.out.contents)
            (sending self.new.slave self.new.out.contents) [] }
        ensures refused_stays { self.new.refused ≡ self.old.refused }
        ensures tasks_stay { self.new.tasks ≡ self.old.tasks }
    {
        lose(&mut self.slave);
    }

    /// The transport is lost, and what waits is thrown away.
    fn hang_up(&mut self)
        ensures hangs_up { Advances most_a_line
            (sending self.old.slave self.old.out.contents)
            (sending self.new.slave self.new.out.contents) [] }
        ensures refused_stays { self.new.refused ≡ self.old.refused }
        ensures tasks_stay { self.new.tasks ≡ self.old.tasks }
    {
        self.slave.hang_up();
    }

    /// The session ends: the slave hangs up, which throws away what waits, the tasks finish, all
    /// that came back is collected, and the slave is closed.
    ///
    /// Refused with `PartLost` if something did not come back.
    pub(crate) fn finish(mut self, alloc: Global) -> Result<Played, PlayFault>
        requires tasks { AreTasksOf self.slave self.tasks.items }
        ensures sent { IfOk result (λ played. played.sent ≡ self.out) }
        ensures refused { IfOk result (λ played. played.refused ≡ self.refused) }
        ensures ends { IfOk result (λ played. (s : SlaveState)
            × Advances most_a_line (sending self.slave self.out.contents)
            (sending s played.sent.contents) []) }
    {
        self.slave.hang_up();
        let Player {
            slave,
            tasks,
            segments: _,
            clock: _,
            memory: _,
            out,
            ends,
            mut parts,
            refused,
        } = self;
        let account = close(alloc, slave, tasks, &mut parts)?;
        Ok(Played {
            sent: out,
            ends,
            parts,
            account,
            refused,
        })
    }
}

/// Finishes the tasks of a slave, collects what came back and closes the slave: its account.
fn close(
    alloc: Global,
    mut slave: Slave,
    tasks: Vec<Task<FrameSend>>,
    parts: &mut Parts,
) -> Result<Account, PlayFault>
    requires tasks { AreTasksOf slave tasks.items }
    ensures collects { IfOk result (λ _. (s : SlaveState) × ((sent : List ℕ)
        → Advances (4 * MAX_CHANNELS) (sending slave sent) (sending s sent) [])) }
{
    let left = finish_all(alloc, tasks)?;
    collect(&mut slave, parts)?;
    let closed = slave.close(left);
    if !closed.is_whole {
        return Err(PlayFault::PartLost);
    }
    Ok(closed.account)
}
