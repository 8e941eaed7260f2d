//! What a bin shows of its samples.
ghost use Rattle.std.specs.Prelude.{◌≡◌};
ghost use Rattle.sample_picture.specs.Marks.{mark_of, with_mark};

/// What is seen of the samples of one bin.
#[derive(Clone, Copy)]
pub enum Mark {
    /// No sample.
    Empty,
    /// Samples, and none of them has the overload indication.
    Sample,
    /// A sample with the overload indication.
    Overload,
}

impl Mark {
    /// The mark of one sample.
    pub fn of(overload: bool) -> Mark
        ensures { result ≡ mark_of overload }
    {
        if overload {
            Mark::Overload
        } else {
            Mark::Sample
        }
    }

    /// What is seen of two bins that become one.
    pub fn with(self, other: Mark) -> Mark
        ensures { result ≡ with_mark self other }
    {
        match self {
            Mark::Overload => Mark::Overload,
            Mark::Sample => match other {
                Mark::Overload => Mark::Overload,
                Mark::Sample => Mark::Sample,
                Mark::Empty => Mark::Sample,
            },
            Mark::Empty => other,
        }
    }

    /// Whether there is a sample.
    pub fn is_sample(self) -> bool {
        !matches!(self, Mark::Empty)
    }

    /// Whether there is a sample with the overload indication.
    pub fn is_overload(self) -> bool {
        matches!(self, Mark::Overload)
    }
}
