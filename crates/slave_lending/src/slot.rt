//! One task as its slave has it: here, handed out, or come back.
ghost use Rattle.std.specs.Prelude.{◌≡◌, IfErr, IfOk, OnErr, OnOk, false, true};
ghost use Rattle.slave_lending.specs.Lends.{RefusesAt};
ghost use Rattle.slave_lending.specs.Slots.{IsEndOf, MayComeBack, away, is_away, with_task};

use crate::lend_fault::LendFault;
use crate::lent_task::LentTask;
use crate::same_line::SameLine;
use frame_ring::FrameSend;
use hand_over::{ComingBack, hand_over};
use std::alloc::Global;
use std::marker::Model;
use std::snapshot::Snapshot;
use tasks::{Task, TaskEnd};

/// The task of an event channel, as its slave has it. It wasn't handed out; or it was, and what is
/// left of it comes back; or that came back.
#[derive(Drop)]
pub struct Slot {
    // the task as it was at first: it tells its line with the slave
    first: Snapshot<Task<FrameSend>>,
    here: Option<Task<FrameSend>>,
    coming: Option<ComingBack<Task<FrameSend>, TaskEnd<FrameSend>, SameLine>>,
    back: Option<TaskEnd<FrameSend>>,
}

impl Model for Slot {
    ghost use Rattle.std.specs.Prelude.{◌≡◌, IfSome};
    ghost use Rattle.std.specs.Option.{is_some};
    ghost use Rattle.slave_channels.specs.Codes.{end_codes};
    ghost use Rattle.slave_lending.specs.Slots.{IsOneOf, SlotState};

    ghost Value = { SlotState };

    ghost coded = { Prim.hlevel end_codes };

    ghost view = { λ s. record {
      ring = s.first.value.ring;
      here = s.here;
      back = s.back;
    } };

    ghost invariant = { λ s.
        IsOneOf (is_some s.here) (is_some s.coming) (is_some s.back)
        × IfSome s.here (λ task. task.ring ≡ s.first.value.ring)
        × IfSome s.coming (λ task. task.ring ≡ s.first.value.ring)
        × IfSome s.back (λ end. end.ring ≡ s.first.value.ring) };
}

impl Slot {
    /// Of a task that wasn't handed out.
    pub fn of(task: Task<FrameSend>) -> Slot
        ensures { result ≡ with_task task }
    {
        Slot {
            first: Snapshot::of(&task),
            here: Some(task),
            coming: None,
            back: None,
        }
    }

    /// Hands the task out.
    pub fn lend(&mut self, alloc: Global) -> Result<LentTask, LendFault>
        ensures task { IfOk result (λ task. self.old ≡ with_task task) }
        ensures away { OnOk result (self.new ≡ away self.old.ring) }
        ensures refused { IfErr result (RefusesAt self.old) }
        ensures err { OnErr result (self.new ≡ self.old) }
        ensures ring_stays { self.new.ring ≡ self.old.ring }
    {
        let Some(task) = self.here.take() else {
            return Err(LendFault::Lent);
        };
        match hand_over::<_, _, SameLine>(alloc, task) {
            Ok((task, way, coming)) => {
                self.coming = Some(coming);
                Ok(LentTask { task, way })
            }
            Err(task) => {
                self.here = Some(task);
                Err(LendFault::Memory)
            }
        }
    }

    /// Takes what is left of the task back, if it was finished; and returns whether it isn't away.
    pub fn collect(&mut self) -> bool
        ensures may { MayComeBack self.old self.new }
        ensures yes { result ≡ true → is_away self.new ≡ false }
        ensures no { result ≡ false → is_away self.new ≡ true }
        ensures ring_stays { self.new.ring ≡ self.old.ring }
    {
        let Some(coming) = &mut self.coming else {
            return true;
        };
        let Some(end) = coming.take() else {
            return false;
        };
        self.coming = None;
        self.back = Some(end);
        true
    }

    /// What is left of the task, which is finished if it wasn't handed out.
    pub fn into_end(self) -> TaskEnd<FrameSend>
        requires not_away { is_away self ≡ false }
        ensures { IsEndOf self result }
    {
        let Slot {
            first: _,
            here,
            coming: _,
            back,
        } = self;
        if let Some(task) = here {
            return task.finish();
        }
        let Some(end) = back else { unreachable!() };
        end
    }
}
