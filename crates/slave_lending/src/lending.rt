//! Tasks are handed out, and taken back.
ghost use Rattle.std.specs.Prelude.{◌≡◌, IfErr, IfOk, OnErr, false, true};
ghost use Rattle.slave_lending.specs.Lends.{Collects, LendsTask, NoneAway, RefusesTask, SomeAway};
ghost use Rattle.slave_lending.specs.States.{LendingSlaveState};

use crate::lend_fault::LendFault;
use crate::lending_slave::LendingSlave;
use crate::lent_task::LentTask;
use crate::slot::Slot;
use std::alloc::Global;

impl LendingSlave {
    /// Hands out the task of event channel `c`.
    ///
    /// Refused with `NoChannel` if there is no such event channel; else with `Lent` if its task was
    /// handed out before; else with `Memory` if there is no memory.
    pub fn lend(&mut self, alloc: Global, c: usize) -> Result<LentTask, LendFault>
        ensures ok { IfOk result (LendsTask self.old self.new c) }
        ensures refused { IfErr result (RefusesTask self.old c) }
        ensures err { OnErr result (self.new ≡ self.old) }
    {
        if c >= self.slots.len() {
            return Err(LendFault::NoChannel);
        }
        self.slots[c].lend(alloc)
    }

    /// Takes the task of event channel `c` back that was handed out last, as though it hadn't been.
    pub fn take_back(&mut self, c: usize, lent: LentTask)
        requires { (before : LendingSlaveState) × LendsTask before self.old c lent }
        ensures { (before : LendingSlaveState)
            → LendsTask before self.old c lent → self.new ≡ before }
    {
        let LentTask { task, way: _ } = lent;
        self.slots[c] = Slot::of(task);
    }

    /// Takes what is left of tasks back, event channel by event channel up to the first whose task
    /// is away; and returns whether there is none.
    pub fn collect(&mut self) -> bool
        ensures collects { Collects self.old self.new }
        ensures all { result ≡ true → NoneAway self.new }
        ensures some { result ≡ false → SomeAway self.new }
    {
        for c in 0..self.slots.len() {
            if !self.slots[c].collect() {
                return false;
            }
        }
        true
    }
}
