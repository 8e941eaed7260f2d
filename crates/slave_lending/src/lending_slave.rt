//! A lending slave is opened: all its tasks are here, and can be handed out.
ghost use Rattle.std.specs.Prelude.{◌≡◌, IfErr, IfOk, OnOk, map};
ghost use Rattle.slave.specs.Refusals.{CanOpen, IsOpenRefusal};
ghost use Rattle.slave_lending.specs.Lends.{IsOpenedWith};
ghost use Rattle.slave_lending.specs.Slots.{with_task};

use crate::slot::Slot;
use frame_ring::FrameSend;
use session::Profile;
use slave::{MasterStream, OpenFault, Slave};
use std::alloc::{AllocError, Global};
use std::marker::Model;
use tasks::{Task, TaskEnd};

/// A slave, the stream of its master, and the tasks of its event channels: those that weren't
/// handed out, the ways back of those that were, and what came back.
#[derive(Drop)]
pub struct LendingSlave {
    pub(crate) slave: Slave,
    pub(crate) stream: MasterStream,
    pub(crate) slots: Vec<Slot>,
    // places for what is left of the tasks, so that a close takes no memory
    pub(crate) room: Vec<TaskEnd<FrameSend>>,
}

impl Model for LendingSlave {
    ghost use Rattle.std.specs.Prelude.{◌≡◌, ◌≤◌, [], length, map, vec_capacity};
    ghost use Rattle.slave_channels.specs.Calls.{rings_of};
    ghost use Rattle.slave_channels.specs.Codes.{end_codes};
    ghost use Rattle.slave_lending.specs.States.{LendingSlaveState};

    ghost Value = { LendingSlaveState };

    ghost coded = { Prim.hlevel end_codes };

    ghost view = { λ l. record {
      slave = l.slave;
      stream = l.stream;
      tasks = l.slots.items;
    } };

    ghost invariant = { λ l. (map (λ slot. slot.ring) l.slots.items ≡ rings_of l.slave.channels)
        × (l.room.items ≡ [])
        × (length l.slots.items ≤ vec_capacity l.room) };
}

/// A slot for each task, in their order.
fn slots_of(alloc: Global, tasks: Vec<Task<FrameSend>>) -> Result<Vec<Slot>, AllocError>
    ensures { IfOk result (λ slots. slots.items ≡ map with_task tasks.items) }
{
    let mut slots = Vec::with_capacity(alloc, tasks.len())?;
    for task in tasks {
        slots.push(Slot::of(task))?;
    }
    Ok(slots)
}

impl LendingSlave {
    /// A slave with this profile, as `Slave::open` opens it. All its tasks are here, and no byte of
    /// a master came.
    pub fn open(alloc: Global, profile: Profile) -> Result<LendingSlave, OpenFault>
        ensures opened { IfOk result (IsOpenedWith profile) }
        ensures can { OnOk result (CanOpen profile) }
        ensures refusal { IfErr result (IsOpenRefusal profile) }
    {
        let (slave, tasks) = Slave::open(alloc, profile)?;
        let Ok(room) = Vec::with_capacity(alloc, tasks.len()) else {
            return Err(OpenFault::Memory);
        };
        let Ok(slots) = slots_of(alloc, tasks) else {
            return Err(OpenFault::Memory);
        };
        let stream = MasterStream::new(&slave);
        Ok(LendingSlave {
            slave,
            stream,
            slots,
            room,
        })
    }
}
