//! The bytes of a sample's entries, one behind another, and where those of a value stand in them.
ghost use Rattle.std.specs.Prelude.{◌≡◌, ◌≤◌, ◌++◌, OnOk, length, take};
ghost use Rattle.copy_plan.specs.Config.{IsPlan, odt};
ghost use Rattle.value_tables.specs.Places.{entries_len, entry_bytes, joined, listed, listed_in};
ghost use Rattle.value_tables.specs.Places.{most_of_odt, most_of_sample, odts_len, place_for};
ghost use Rattle.value_tables.specs.Places.{sample_len};

use crate::column::Column;
use crate::source::source_of;
use daq_reader::{ListShape, SampleView};
use std::alloc::AllocError;

/// The number of bytes of all entries of a sample.
pub fn sample_len(shape: &ListShape) -> u32
    ensures value { result ≡ sample_len shape.now }
    ensures limit { result ≤ most_of_sample }
{
    odts_len(shape, shape.odts())
}

/// How many bytes of entries stand in front of those of a column, ODT by ODT and entry by entry;
/// `None` exactly if no entry of the list has all bytes of the column.
pub fn place_for(shape: &ListShape, column: &Column<'_>) -> Option<u32>
    ensures { result ≡ place_for shape.now column.now }
{
    let source = source_of(shape, column.address, column.encoding.data_type)?;
    let odts = odts_len(shape, source.odt);
    let entries = entries_len(shape, source.odt, source.entry);
    Some(odts + entries + source.offset as u32)
}

/// The bytes of the first `count` ODTs.
fn odts_len(shape: &ListShape, count: usize) -> u32
    ensures value { result ≡ odts_len (take count shape.now.odts) }
    ensures limit { result ≤ most_of_sample }
    ensures plan { IsPlan shape.now }
{
    let mut bytes = 0;
    for k in 0..count.min(shape.odts()) {
        bytes += entries_len(shape, k, shape.entries(k));
    }
    bytes
}

/// The bytes of the first `count` entries of an ODT.
fn entries_len(shape: &ListShape, k: usize, count: usize) -> u32
    requires plan { IsPlan shape.now }
    requires few { count ≤ length (odt shape.now k) }
    ensures value { result ≡ entries_len (take count (odt shape.now k)) }
    ensures limit { result ≤ most_of_odt }
{
    let mut bytes = 0;
    for e in 0..count {
        let Some((_, size)) = shape.entry(k, e) else {
            unreachable!();
        };
        bytes += size as u32;
    }
    bytes
}

/// Appends the bytes of all entries of a sample, ODT by ODT and entry by entry.
pub fn push_entries(out: &mut Vec<u8>, sample: &SampleView<'_>) -> Result<(), AllocError>
    ensures listed { OnOk result
        (out.new.items ≡ out.old.items ++ listed sample.now.plan sample.now.sample) }
    ensures joined { OnOk result
        (out.new.items ≡ out.old.items ++ joined sample.now.sample) }
{
    for k in 0..sample.shape().odts() {
        push_odt(out, sample, k)?;
    }
    Ok(())
}

/// Appends the bytes of the entries of an ODT.
fn push_odt(out: &mut Vec<u8>, sample: &SampleView<'_>, k: usize) -> Result<(), AllocError>
    ensures { OnOk result
        (out.new.items ≡ out.old.items ++ listed_in sample.now.plan sample.now.sample k) }
{
    for e in 0..sample.shape().entries(k) {
        push_entry(out, sample, k, e)?;
    }
    Ok(())
}

/// Appends the bytes of an entry, if the sample has it.
fn push_entry(
    out: &mut Vec<u8>,
    sample: &SampleView<'_>,
    k: usize,
    e: usize,
) -> Result<(), AllocError>
    ensures { OnOk result
        (out.new.items ≡ out.old.items ++ entry_bytes sample.now.sample k e) }
{
    let Some(bytes) = sample.entry(k, e) else {
        return Ok(());
    };
    out.extend_from_slice(bytes)
}
