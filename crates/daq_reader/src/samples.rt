//! The trait of whoever is handed the samples of a recording.
ghost use Rattle.std.specs.Prelude.{◌≡◌, ℕ, List, [], ◌∷◌, ◌++◌};
ghost use Rattle.daq_reader.specs.Recorded.{Recorded};

use crate::sample_view::SampleView;

/// What is handed each whole sample, such as a table or a picture. The place of a list is its index
/// in the `Reader`.
pub trait Samples {
    /// The samples that it was handed, in order, each with the place of its list.
    ghost handed: { Self → List (ℕ × Recorded) };

    /// The type of `kept`.
    ghost Kept: { Type 0 } = { Unit {0} };

    /// What no sample changes, such as the number of lists that a summary counts.
    ghost kept: { Self → Self.Kept };

    /// Is handed a sample. It returns nothing: who can't write it keeps the fault for later.
    fn hand(&mut self, place: usize, sample: &SampleView<'_>)
        ensures handed { Self.handed self.new
            ≡ Self.handed self.old ++ (place, sample.now.sample) ∷ [] }
        ensures kept { Self.kept self.new ≡ Self.kept self.old };
}
