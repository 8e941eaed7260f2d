//! What a caller puts beside a run in one thread: it hears what came of each step.
ghost use Rattle.daq_run.specs.declared.came.Came.{Came};

use crate::came::Came;

/// What is told what came of each step of a run, one after another. No step depends on it.
pub trait Watch {
    /// Whether a watch, told of a step, came from one state to another.
    ghost notes: { Self → Came → Self → Type 0 };

    /// Is told what came of the next step.
    fn note(&mut self, came: Came)
        ensures { notes self.old came self.new };
}

/// A watch that keeps nothing.
#[derive(Clone, Copy, Debug, PartialEq, Eq)]
pub struct NoWatch;

impl Watch for NoWatch {
    ghost use Rattle.std.specs.Prelude.{⊤};

    ghost notes = { λ _ _ _. ⊤ };

    fn note(&mut self, _came: Came) {}
}
