//! The counts of one DAQ list: samples, overloads, first and last timestamp.
ghost use Rattle.std.specs.Prelude.{◌≡◌};
ghost use Rattle.sample_tables.specs.Tallies.{first_of, tally_with};

/// What there is of the samples of one DAQ list.
#[derive(Clone, Copy, Debug, PartialEq, Eq)]
pub struct Tally {
    /// The samples, modulo 2^64.
    pub samples: u64,
    /// Those with the overload indication, modulo 2^64.
    pub overloads: u64,
    /// The ticks of the first sample that has a timestamp.
    pub first: Option<u32>,
    /// The ticks of the last sample that has one.
    pub last: Option<u32>,
}

impl Tally {
    /// No samples.
    pub const NONE: Tally = Tally {
        samples: 0,
        overloads: 0,
        first: None,
        last: None,
    };

    /// The same with one sample more.
    pub fn with(self, overload: bool, stamp: Option<u32>) -> Tally
        ensures { result ≡ tally_with self overload stamp }
    {
        Tally {
            samples: self.samples.wrapping_add(1),
            overloads: self.overloads.wrapping_add(overload as u64),
            first: first_of(self.first, stamp),
            last: first_of(stamp, self.last),
        }
    }
}

/// The first that is there.
fn first_of(first: Option<u32>, second: Option<u32>) -> Option<u32>
    ensures { result ≡ first_of first second }
{
    match first {
        Some(ticks) => Some(ticks),
        None => second,
    }
}
