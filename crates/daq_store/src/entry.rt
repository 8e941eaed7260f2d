//! ODT entries, and whether an event channel may read one.
ghost use Rattle.std.specs.Prelude.{◌≡◌, ◌<◌};
ghost use Rattle.daq_store.specs.Configuration.{is_within};

use segments::Segments;
use segments::limits::MAX_READERS;

/// WRITE_DAQ: an ODT entry, a part of memory by its address extension, its address and its size in
/// bytes.
#[derive(Clone, Copy, Debug, PartialEq, Eq)]
pub struct Entry {
    pub extension: u8,
    pub address: u32,
    pub size: u8,
}

/// Whether an entry is written and lies in a segment that an event channel may read.
pub fn is_within(channel: u8, segments: &Segments, entry: &Option<Entry>) -> bool
    requires { channel < MAX_READERS }
    ensures { result ≡ is_within channel segments.now entry.now }
{
    match entry {
        Some(entry) => segments.is_readable(
            channel,
            entry.extension,
            entry.address as usize,
            entry.size as usize,
        ),
        None => false,
    }
}
