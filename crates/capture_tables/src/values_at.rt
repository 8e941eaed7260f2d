//! Where values stand in the samples of a list.
ghost use Rattle.std.specs.Prelude.{◌≡◌, ◌^◌, ◌<◌, ◌≤◌, IfErr, IfOk, OnErr, false, length};
ghost use Rattle.captured_samples.specs.Places.{size_of as size_of_entries};
ghost use Rattle.measured_values.specs.Encodings.{size_of};
ghost use Rattle.capture_tables.specs.Places.{IsPlace, IsPlaceIn, entries_hold, holds, raw_in};

use captured_session::{CapturedList, Element};
use measured_values::{DataType, Encoding, Raw, raw_of};

/// Where the bytes of a value at an address stand in the samples of a list: in the first entry that
/// has all of them; `None` if there is none.
pub fn place_in(list: &CapturedList, address: u32, data_type: DataType) -> Option<usize>
    ensures { IsPlaceIn list.now address (size_of data_type) result }
{
    let mut before = 0usize;
    for odt in 0..list.odts() {
        match place_among(list.entries(odt), address, data_type) {
            Ok(place) => return Some(before + place),
            Err(len) => before += len,
        }
    }
    None
}

/// The same, in entries; if there is none, how many bytes they have.
fn place_among(entries: &[Element], address: u32, data_type: DataType) -> Result<usize, usize>
    requires { length entries.now ≤ 255 }
    ensures place { IfOk result (λ place. IsPlace entries.now address (size_of data_type) place) }
    ensures near { IfOk result (λ place. place < 2 ^ 33) }
    ensures none { OnErr result
        (entries_hold entries.now address (size_of data_type) ≡ false) }
    ensures len { IfErr result (λ len. len ≡ size_of_entries entries.now) }
    ensures few { IfErr result (λ len. len ≤ 65025) }
{
    let mut before = 0usize;
    for entry in entries {
        if holds(entry, address, data_type) {
            return Ok(before + (address - entry.address) as usize);
        }
        before += entry.size as usize;
    }
    Err(before)
}

/// Whether an entry has all bytes of a value at an address. One that is one bit has none.
pub fn holds(entry: &Element, address: u32, data_type: DataType) -> bool
    ensures { result ≡ holds address (size_of data_type) entry.now }
{
    let size = data_type.size();
    entry.extension == 0
        && entry.bit == 0xFF
        && entry.address <= address
        && address as usize + size <= entry.address as usize + entry.size as usize
}

/// The raw value that stands at a place in the bytes of a sample, if its bytes are there.
pub fn raw_at(bytes: &[u8], place: Option<usize>, encoding: Encoding) -> Option<Raw>
    ensures { result ≡ raw_in encoding place bytes.now }
{
    let place = place?;
    let end = place.checked_add(encoding.data_type.size())?;
    raw_of(encoding, bytes.get(place..end)?)
}
