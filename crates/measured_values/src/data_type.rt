//! The data types of measured values, and how many bytes each has.
ghost use Rattle.std.specs.Prelude.{◌≡◌, ◌≤◌, ◌<◌};
ghost use Rattle.measured_values.specs.Encodings.{size_of};

/// What the bytes of a value are (ASAM MCD-2 MC, data types).
#[derive(Clone, Copy, Debug, PartialEq, Eq)]
pub enum DataType {
    UByte,
    SByte,
    UWord,
    SWord,
    ULong,
    SLong,
    AUint64,
    AInt64,
    Float16,
    Float32,
    Float64,
}

impl DataType {
    /// The number of the bytes: 1, 2, 4 or 8.
    pub fn size(self) -> usize
        ensures value { result ≡ size_of self }
        ensures limit { result ≤ 8 }
        ensures some { 0 < result }
    {
        match self {
            DataType::UByte | DataType::SByte => 1,
            DataType::UWord | DataType::SWord | DataType::Float16 => 2,
            DataType::ULong | DataType::SLong | DataType::Float32 => 4,
            DataType::AUint64 | DataType::AInt64 | DataType::Float64 => 8,
        }
    }
}
