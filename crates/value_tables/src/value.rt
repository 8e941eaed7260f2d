//! From a sample to the value of a column: its bytes, raw, physical, as a number, as a text.
ghost use Rattle.std.specs.Prelude.{◌≡◌, IfSome, None, OnOk, Option, length};
ghost use Rattle.std.specs.Prelude.{option_map, string_bytes};
ghost use Rattle.std.specs.Option.{option_copied};
ghost use Rattle.measured_values.specs.Physicals.{converted, shown_of};
ghost use Rattle.value_tables.specs.ValueTallies.{number_of};
ghost use Rattle.value_tables.specs.Values.{IsCellOf, bytes_at, conversion_of, raw_at, width_of};

use crate::column::Column;
use crate::source::Source;
use daq_reader::SampleView;
use measured_values::{Physical, Raw, physical_of, push_physical, raw_of};
use std::alloc::AllocError;

/// The bytes of a column in a sample. `source` says where the samples of its DAQ list have them; it
/// is `None` if they don't.
fn bytes_at<'s>(
    sample: &'s SampleView<'_>,
    column: &Column<'_>,
    source: Option<Source>,
) -> Option<&'s [u8]>
    ensures bytes { option_copied result
        ≡ bytes_at sample.now.sample (width_of column.now) source }
    ensures size { IfSome result (λ bytes. length bytes.now ≡ width_of column.now) }
{
    let source = source?;
    let bytes = sample.entry(source.odt, source.entry)?;
    let offset = source.offset as usize;
    bytes.get(offset..offset + column.encoding.data_type.size())
}

/// The raw value of a column in a sample, at its source; `None` without one.
pub fn raw_at(sample: &SampleView<'_>, column: &Column<'_>, source: Option<Source>) -> Option<Raw>
    ensures { result ≡ raw_at sample.now.sample column.now source }
{
    let bytes = bytes_at(sample, column, source)?;
    let Some(raw) = raw_of(column.encoding, bytes) else {
        unreachable!();
    };
    Some(raw)
}

/// The number that a curve or a mean takes: that of the physical value, of a text that of the raw
/// value. `None` as for `raw_at`.
pub fn number_at(
    sample: &SampleView<'_>,
    column: &Column<'_>,
    source: Option<Source>,
) -> Option<f64>
    ensures { result ≡ option_map (number_of column.now)
        (raw_at sample.now.sample column.now source) }
{
    let raw = raw_at(sample, column, source)?;
    Some(physical_in(column, raw).number(raw))
}

/// Puts the physical value of a raw one into a text, in place of what was there; without a value
/// the text is empty.
pub fn write_value(
    text: &mut String,
    column: &Column<'_>,
    raw: Option<Raw>,
) -> Result<(), AllocError>
    ensures { OnOk result (IsCellOf column.now raw (string_bytes text.new)) }
{
    text.clear();
    match raw {
        Some(raw) => push_physical(text, &physical_in(column, raw)),
        None => Ok(()),
    }
}

/// What a column makes of a raw value.
pub fn physical_in<'a>(column: &Column<'a>, raw: Raw) -> Physical<'a>
    ensures { shown_of result ≡ converted (conversion_of column.now) raw }
{
    match column.conversion {
        Some(conversion) => physical_of(conversion, raw),
        None => Physical::unconverted(raw),
    }
}
