//! What a handle of a slave or a task holds.
ghost use Rattle.std.specs.Prelude.{◌≡◌, IfErr, IfOk};

use c_engine::Status;
use slave_lending::{LendingSlave, LentTask};
use std::alloc::Global;

/// What a handle of a slave or of its tasks may hold.
#[derive(Drop)]
pub enum Content {
    /// A slave.
    Slave(LendingSlave),
    /// The task of an event channel.
    Task(LentTask),
}

impl Content {
    /// The same on the heap.
    pub fn boxed(self, alloc: Global) -> Result<Box<Content>, Status>
        ensures ok { IfOk result (λ it. it.value ≡ self) }
        ensures err { IfErr result (λ status. status ≡ Status.Memory) }
    {
        match Box::new(alloc, self) {
            Ok(boxed) => Ok(boxed),
            Err(failed) => {
                // for the proof: what is lost is dropped as a content, whose drop is proved once
                let _lost = failed.value;
                Err(Status::Memory)
            }
        }
    }
}
