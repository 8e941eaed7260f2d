//! The calls by the task of a handle.

ghost use Rattle.std.specs.Prelude.{◌≡◌, ◌↔◌, IsTrue, Some};
ghost use Rattle.c_slave.specs.Tasks.{FinishesHeldBy, IsTask, TriggersHeldTask, TriggersTask};
ghost use Rattle.c_slave.specs.Tasks.{parts, status_of_finish};

use crate::content::Content;
use crate::handle::Handle;
use c_engine::{Status, TakenOut};
use sampler::MemoryFault;
use slave_lending::{GivenTask, LentTask};
use std::alloc::Global;

/// Takes a trigger, with a slice for each segment, in their order.
fn trigger(task: &mut LentTask, memory: &[&[u8]], stamp: u32, taken: &mut TakenOut) -> Status
    ensures { TriggersTask task.old task.new (parts memory.now) stamp taken.old taken.new result }
{
    match task.trigger(memory, stamp) {
        Ok(sets) => {
            *taken = TakenOut::of(sets);
            Status::Ok
        }
        Err(MemoryFault::WrongMemory) => Status::WrongMemory,
        Err(MemoryFault::Spent) => Status::Spent,
    }
}

/// Takes a trigger by a task, if this is one.
fn trigger_in(content: &mut Content, memory: &[&[u8]], stamp: u32, taken: &mut TakenOut) -> Status
    ensures { TriggersHeldTask (Some content.old) (Some content.new) (parts memory.now) stamp
        taken.old taken.new result }
{
    match content {
        Content::Task(task) => trigger(task, memory, stamp, taken),
        _ => Status::Empty,
    }
}

/// Takes a trigger by the task of a handle.
pub fn trigger_task_by(
    handle: &mut Handle,
    memory: &[&[u8]],
    stamp: u32,
    taken: &mut TakenOut,
) -> Status
    ensures { TriggersHeldTask handle.old.held handle.new.held (parts memory.now) stamp
        taken.old taken.new result }
{
    let Some(content) = handle.content() else {
        return Status::Empty;
    };
    trigger_in(content, memory, stamp, taken)
}

/// Whether a task is held.
fn holds_task(content: &Content) -> bool
    ensures { IsTrue result ↔ IsTask content.now }
{
    matches!(content, Content::Task(_))
}

/// Finishes the task of a handle, and gives what is left of it back to its slave: the way on which
/// it was given; or `Empty`, if there is no task.
pub fn finish_task_by(alloc: Global, handle: &mut Handle) -> Result<GivenTask, Status>
    ensures { FinishesHeldBy handle.old.held handle.new.held result }
{
    let Some(held) = handle.take(alloc) else {
        return Err(Status::Empty);
    };
    if !holds_task(held.as_ref()) {
        handle.put(alloc, held);
        return Err(Status::Empty);
    }
    match Box::into_inner(held) {
        Content::Task(task) => Ok(task.finish()),
        _ => unreachable!(),
    }
}

/// What a finish is to C: what was given back is there for its slave, and this end of the way is
/// freed.
pub fn status_of_finish(finish: Result<GivenTask, Status>) -> Status
    ensures { result ≡ status_of_finish finish }
{
    match finish {
        Ok(_given) => Status::Ok,
        Err(status) => status,
    }
}
