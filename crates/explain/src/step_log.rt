//! What came of each step is kept, for the story of a run.
ghost use Rattle.std.specs.Prelude.{◌≡◌, [], false};
ghost use Rattle.explain.specs.Logs.{KeepsCame};

use daq_run::{Came, Watch};
use std::alloc::Global;

/// What came of the steps of a run, kept in order.
#[derive(Drop)]
pub struct StepLog {
    /// What came of each.
    pub cames: Vec<Came>,
    /// Whether memory was refused, and so not all is kept.
    pub is_short: bool,
}

impl StepLog {
    /// Before the first step.
    pub fn new(alloc: Global) -> StepLog
        ensures empty { result.cames.items ≡ [] }
        ensures whole { result.is_short ≡ false }
    {
        StepLog {
            cames: Vec::new(alloc),
            is_short: false,
        }
    }
}

impl Watch for StepLog {
    ghost notes = { KeepsCame };

    fn note(&mut self, came: Came)
        ensures { KeepsCame self.old came self.new }
    {
        if self.is_short {
            return;
        }
        let Ok(()) = self.cames.push(came) else {
            self.is_short = true;
            return;
        };
    }
}
