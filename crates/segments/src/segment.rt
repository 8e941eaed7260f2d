//! A segment: a part of memory whose bytes have addresses one behind another.
ghost use Rattle.std.specs.Prelude.{◌≡◌, ◌<◌};
ghost use Rattle.segments.specs.Segment.{all_readers, holds, may_read};

use crate::limits::MAX_READERS;

/// A part of a controller's memory, as a master names it: `len` bytes whose addresses begin at
/// `base` and have this address extension.
#[derive(Clone, Copy, Debug, Default, PartialEq, Eq)]
pub struct Segment {
    pub extension: u8,
    pub base: u32,
    /// 1 to 2^32 bytes.
    pub len: usize,
    /// The event channels that may read it: bit `c` stands for event channel `c`.
    pub events: u16,
}

impl Segment {
    /// Whether so many bytes from an address on lie in it.
    pub fn holds(&self, extension: u8, address: usize, size: usize) -> bool
        ensures { result ≡ holds extension address size self.now }
    {
        self.extension == extension
            && self.base as usize <= address
            && size <= self.len
            && address - self.base as usize <= self.len - size
    }

    /// Whether an event channel may read it.
    pub fn may_read(&self, channel: u8) -> bool
        requires { channel < MAX_READERS }
        ensures { result ≡ may_read channel self.now }
    {
        self.events >> channel & 1 == 1
    }
}

/// The set of all event channels, where there are so many: 16 at most.
pub fn all_readers(channels: usize) -> u16
    ensures { result ≡ all_readers channels }
{
    if channels >= MAX_READERS as usize {
        return 0xFFFF;
    }
    ((1_u32 << channels) - 1) as u16
}
