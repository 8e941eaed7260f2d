//! The trait of whoever is handed the samples of a captured session.

use crate::list_samples::ListSamples;
use crate::mark::Mark;
use captured_session::CapturedList;
use std::alloc::AllocError;

/// What is handed the samples of a slave. Each set-up of a list has a number of its own, from 0 on.
pub trait SampleSink {
    ghost use Rattle.std.specs.Prelude.{◌∷◌, [], List, OnOk, ⊤};
    ghost use Rattle.captured_samples.specs.Slaves.{Tells};
    ghost use Rattle.captured_samples.specs.Standing.{Told, began, handed};

    /// How it may stand after what it was told, with the oldest in front; who says nothing of that
    /// may stand as it likes.
    ghost told: { Self → List Told → Type 0 } = { λ _ _. ⊤ };

    /// A list was set up, or set up anew.
    fn begin(&mut self, number: usize, list: &CapturedList) -> Result<(), AllocError>
        ensures { OnOk result
            (Tells (told self.old) (told self.new) (began number list.now ∷ [])) };

    /// Is handed a whole sample, with what its mark says. Who can't write it keeps the fault for
    /// later.
    fn hand(&mut self, number: usize, sample: &ListSamples, mark: Mark)
        ensures { Tells (told self.old) (told self.new) (handed number sample.now mark ∷ []) };
}
