//! A task that was handed out: it takes triggers, and is given back when it is finished.
use crate::same_line::SameLine;
use frame_ring::FrameSend;
use hand_over::{Given, WayBack};
use sampler::{MemoryFault, Taken};
use std::marker::Model;
use tasks::{Task, TaskEnd};

/// The way back on which what is left of a task was given. There is none but of `LentTask::finish`:
/// so a call that has one has given it.
pub type GivenTask = Given<Task<FrameSend>, TaskEnd<FrameSend>, SameLine>;

/// A task that was handed out, and its way back to its slave.
///
/// Contracts see the task.
#[derive(Drop)]
pub struct LentTask {
    pub(crate) task: Task<FrameSend>,
    pub(crate) way: WayBack<Task<FrameSend>, TaskEnd<FrameSend>, SameLine>,
}

impl Model for LentTask {
    ghost use Rattle.std.specs.Prelude.{◌≡◌};
    ghost use Rattle.frame_ring.specs.declared.frame_send.FrameSend.{FrameSend};
    ghost use Rattle.slave_channels.specs.Codes.{end_codes};
    ghost use Rattle.tasks.specs.Tasks.{TaskState};

    ghost Value = { TaskState FrameSend };

    ghost coded = { Prim.hlevel end_codes };

    ghost view = { λ l. l.task };

    ghost invariant = { λ l. l.task.ring ≡ l.way.ring };
}

impl LentTask {
    ghost use Rattle.segments.specs.Memory.{parts};
    ghost use Rattle.slave_lending.specs.LentTasks.{IsLeftOf, TakesTurnWith};

    /// Does all that the slave ordered, in its order, and then takes a trigger, as `Task::trigger`.
    pub fn trigger(&mut self, memory: &[&[u8]], stamp: u32) -> Result<Taken, MemoryFault>
        ensures { TakesTurnWith self.old self.new (parts memory.now) stamp result }
    {
        self.task.trigger(memory, stamp)
    }

    /// Finishes the task, and gives what is left of it back to its slave.
    pub fn finish(self) -> GivenTask
        ensures { IsLeftOf self result.left }
    {
        let LentTask { task, way } = self;
        way.give(task.finish())
    }
}
