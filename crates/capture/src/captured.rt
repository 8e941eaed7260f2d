//! A packet that was captured.

use crate::capture_time::CaptureTime;

/// A packet that was captured.
#[derive(Clone, Copy)]
pub struct Captured<'b> {
    /// Its link type, as the registry of tcpdump.org has it (LINKTYPE): 1 is Ethernet.
    pub link: u16,
    /// When it was captured, if that is told.
    pub time: Option<CaptureTime>,
    /// How many bytes it had.
    pub original: u32,
    /// Those of them that were kept, from the first on.
    pub bytes: &'b [u8],
}
