//! What a sample's mark says.
ghost use Rattle.std.specs.Prelude.{◌≡◌, ◌≤◌};
ghost use Rattle.captured_samples.specs.Marks.{number_of};

/// What a sample's mark says: whether samples are missing in front of it.
#[derive(Clone, Copy, Debug, PartialEq, Eq)]
pub struct Mark {
    /// The slave says so, by the overload indication.
    pub overload: bool,
    /// Frames of the slave are missing in the capture.
    pub gap: bool,
}

impl Mark {
    /// The number that is written: 1 is the overload indication, 2 a gap, 3 both.
    pub fn number(self) -> u8
        ensures value { result ≡ number_of self }
        ensures few { result ≤ 3 }
    {
        match (self.overload, self.gap) {
            (false, false) => 0,
            (true, false) => 1,
            (false, true) => 2,
            (true, true) => 3,
        }
    }
}
