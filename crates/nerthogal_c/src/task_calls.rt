//! The calls of a slave's task.

ghost use Rattle.std.specs.Prelude.{◌≡◌};
ghost use Rattle.c_engine.specs.Statuses.{number_of};
ghost use Rattle.c_engine.specs.declared.status.Status.{Status as StatusOf};
ghost use Rattle.c_slave.specs.Tasks.{FinishesHeld, TriggersHeldTask, parts};

use c_engine::TakenOut;
use c_slave::{Handle, finish_task_by, status_of_finish, trigger_task_by};
use std::alloc::Global;

/// Does all that the slave ordered, and then takes a trigger of the task's event channel, with a
/// slice for each segment of memory, in their order, and a timestamp in ticks. While there is no
/// measurement nothing is due.
///
/// Refused in this order: no task; in a measurement, not a slice for each segment, or one that the
/// event channel may read and that has another length, `MAX_TRIGGERS` triggers taken. What the
/// slave ordered is done then too.
#[unsafe(no_mangle)]
pub extern "C" fn ng_task_trigger(
    task: &mut Handle,
    memory: &[&[u8]],
    stamp: u32,
    taken: &mut TakenOut,
) -> u32
    ensures { (status : StatusOf) × (result ≡ number_of status)
        × TriggersHeldTask task.old.held task.new.held (parts memory.now) stamp
        taken.old taken.new status }
{
    trigger_task_by(task, memory, stamp, taken).number()
}

/// Finishes a task, and gives what is left of it back to its slave. The handle is empty then.
///
/// Refused if there is no task.
#[unsafe(no_mangle)]
pub extern "C" fn ng_task_finish(alloc: Global, task: &mut Handle) -> u32
    ensures { (status : StatusOf) × (result ≡ number_of status)
        × FinishesHeld task.old.held task.new.held status }
{
    status_of_finish(finish_task_by(alloc, task)).number()
}
