//! The sizes that a timestamp may have: 1, 2 or 4 bytes.
ghost use Rattle.std.specs.Prelude.{◌≡◌, ◌≤◌};
ghost use Rattle.xcp_base.specs.Forms.{size_of, stamp_bytes};

use crate::limits::MAX_STAMP;

/// How many bytes a timestamp has (ASAM MCD-1 XCP, protocol layer, timestamp field).
#[derive(Clone, Copy, Debug, PartialEq, Eq)]
pub enum StampSize {
    One,
    Two,
    Four,
}

impl StampSize {
    /// The size of so many bytes; there are those of 1, 2 and 4.
    pub fn of(bytes: u8) -> Option<StampSize>
        ensures { result ≡ size_of bytes }
    {
        match bytes {
            1 => Some(StampSize::One),
            2 => Some(StampSize::Two),
            4 => Some(StampSize::Four),
            _ => None,
        }
    }

    /// The number of the bytes.
    #[inline]
    pub fn bytes(self) -> u8
        ensures value { result ≡ stamp_bytes self }
        ensures limit { result ≤ MAX_STAMP }
    {
        match self {
            StampSize::One => 1,
            StampSize::Two => 2,
            StampSize::Four => 4,
        }
    }
}
