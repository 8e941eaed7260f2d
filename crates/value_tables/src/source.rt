//! Which bytes of a sample are those of a value.
ghost use Rattle.std.specs.Prelude.{◌≡◌, Some, slice_get};
ghost use Rattle.copy_plan.specs.Config.{OdtEntry, odt};
ghost use Rattle.measured_values.specs.Encodings.{size_of};
ghost use Rattle.value_tables.specs.Sources.{holds, source_at, source_in, source_of};

use daq_reader::ListShape;
use measured_values::DataType;

/// Where the bytes of a value stand in the samples of a DAQ list.
#[derive(Clone, Copy)]
pub struct Source {
    /// The ODT.
    pub odt: usize,
    /// The entry in the ODT.
    pub entry: usize,
    /// How many bytes of the entry stand before them.
    pub offset: u8,
}

/// Where the bytes of a value at an address stand: in the first entry that has all of them.
pub fn source_of(shape: &ListShape, address: u32, data_type: DataType) -> Option<Source>
    ensures { result ≡ source_of shape.now address (size_of data_type) }
{
    for k in 0..shape.odts() {
        let source = source_in(shape, k, address, data_type);
        if source.is_some() {
            return source;
        }
    }
    None
}

/// The same, in an ODT.
fn source_in(shape: &ListShape, k: usize, address: u32, data_type: DataType) -> Option<Source>
    ensures { result ≡ source_in address (size_of data_type) k (odt shape.now k) }
{
    for e in 0..shape.entries(k) {
        let source = source_at(shape, k, e, address, data_type);
        if source.is_some() {
            return source;
        }
    }
    None
}

/// The same, in an entry.
fn source_at(
    shape: &ListShape,
    k: usize,
    e: usize,
    address: u32,
    data_type: DataType,
) -> Option<Source>
    ensures { (entry : OdtEntry) → slice_get (odt shape.now k) e ≡ Some entry
        → result ≡ source_at address (size_of data_type) k e entry }
{
    let entry = shape.entry(k, e)?;
    if !holds(entry, address, data_type) {
        return None;
    }
    Some(Source {
        odt: k,
        entry: e,
        offset: (address as usize - entry.0) as u8,
    })
}

/// Whether an entry, by its address and its bytes, has all bytes of a value.
fn holds(entry: (usize, u8), address: u32, data_type: DataType) -> bool
    ensures { result ≡ holds address (size_of data_type) entry }
{
    let (start, bytes) = entry;
    let size = data_type.size();
    start <= address as usize && address as usize + size <= start + bytes as usize
}
