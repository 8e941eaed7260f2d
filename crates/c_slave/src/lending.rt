//! The tasks of a slave, handed out by their event channels.

ghost use Rattle.std.specs.Prelude.{◌≡◌, IfErr, None, OnErr, OnOk, Some};
ghost use Rattle.c_slave.specs.OnHandles.{OnSlave};
ghost use Rattle.c_slave.specs.Tasks.{GivesTask, LendsInto, status_of};

use crate::content::Content;
use crate::handle::Handle;
use c_engine::Status;
use slave_lending::{LendFault, LendingSlave};
use std::alloc::Global;

/// What a fault is to C.
fn status_of(fault: LendFault) -> Status
    ensures { result ≡ status_of fault }
{
    match fault {
        LendFault::NoChannel => Status::BadLimits,
        LendFault::Lent => Status::NoTask,
        LendFault::Memory => Status::Memory,
    }
}

/// Puts what is given into an empty handle, or gives it back if there is no memory.
fn put_in(alloc: Global, given: Content, handle: &mut Handle) -> Result<(), Content>
    ensures ok { OnOk result (handle.new.held ≡ Some given) }
    ensures back { IfErr result (λ back. back ≡ given) }
    ensures err { OnErr result (handle.new.held ≡ handle.old.held) }
{
    match Box::new(alloc, given) {
        Ok(content) => {
            handle.put(alloc, content);
            Ok(())
        }
        Err(failed) => Err(failed.value),
    }
}

/// Hands the task of event channel `c` of a slave out, into an empty handle.
fn lend(alloc: Global, slave: &mut LendingSlave, c: usize, task: &mut Handle) -> Status
    requires empty { task.old.held ≡ None }
    ensures { LendsInto slave.old slave.new c task.new.held result }
{
    let lent = match slave.lend(alloc, c) {
        Ok(lent) => lent,
        Err(fault) => return status_of(fault),
    };
    match put_in(alloc, Content::Task(lent), task) {
        Ok(()) => Status::Ok,
        Err(back) => {
            let Content::Task(lent) = back else {
                unreachable!()
            };
            slave.take_back(c, lent);
            Status::Memory
        }
    }
}

/// Hands the task of event channel `c` of what is held out, if it is a slave.
fn lend_of(alloc: Global, content: &mut Content, c: usize, task: &mut Handle) -> Status
    requires empty { task.old.held ≡ None }
    ensures { OnSlave (Some content.old) (Some content.new) result (task.new.held ≡ None)
        (λ s t. LendsInto s t c task.new.held result) }
{
    match content {
        Content::Slave(slave) => lend(alloc, slave, c, task),
        _ => Status::Empty,
    }
}

/// Hands the task of event channel `c` of the slave of a handle out, into an empty handle.
pub fn give_task(alloc: Global, slave: &mut Handle, c: u16, task: &mut Handle) -> Status
    ensures { GivesTask slave.old.held slave.new.held c task.old.held task.new.held result }
{
    if let Some(_) = task.content() {
        return Status::InUse;
    }
    let Some(content) = slave.content() else {
        return Status::Empty;
    };
    lend_of(alloc, content, c as usize, task)
}
