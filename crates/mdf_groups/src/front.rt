//! What a record begins with.
ghost use Rattle.std.specs.Prelude.{◌≡◌, ◌≤◌};
ghost use Rattle.mdf_groups.specs.Records.{front_len};

/// What a record begins with.
#[derive(Clone, Copy, Debug, PartialEq, Eq)]
pub enum Front {
    /// A time in seconds: a float of 8 bytes.
    Seconds,
    /// A time in ticks of an unknown length: an unsigned number of 8 bytes.
    Ticks,
    /// No byte.
    Nothing,
}

impl Front {
    /// How many bytes it has.
    pub fn size(self) -> u32
        ensures value { result ≡ front_len self }
        ensures limit { result ≤ 8 }
    {
        match self {
            Front::Seconds | Front::Ticks => 8,
            Front::Nothing => 0,
        }
    }
}
