//! The samples that were handed over, which only clauses read. At run time it is nothing.
ghost use Rattle.std.specs.Prelude.{◌≡◌, ◌++◌, ◌∷◌, List, [], ℕ};
ghost use Rattle.std.specs.Borrow.{ftrue};
ghost use Rattle.daq_reader.specs.Recorded.{Recorded};

use crate::sample_view::SampleView;
use std::marker::{Model, PhantomData};

/// A list of samples of which no byte is kept.
#[derive(Drop)]
pub struct SampleLog {
    marker: PhantomData<u8>,
    pub ghost samples: { List (ℕ × Recorded) },
}

impl Model for SampleLog {
    ghost also_owns = { λ _. ftrue };
}

impl SampleLog {
    /// No samples.
    pub fn new() -> SampleLog
        ensures { result.samples ≡ [] }
    {
        SampleLog {
            marker: PhantomData,
        }
    }

    /// This sample was handed over too, with the place of its list.
    pub fn note(&mut self, _place: usize, _sample: &SampleView<'_>)
        ensures { self.new.samples ≡ self.old.samples ++ (_place, _sample.now.sample) ∷ [] }
    {}
}
