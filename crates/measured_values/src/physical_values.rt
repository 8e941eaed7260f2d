//! From a raw value to a physical one.
ghost use Rattle.std.specs.Prelude.{◌≡◌, find};
ghost use Rattle.std.specs.Option.{option_copied};
ghost use Rattle.measured_values.specs.Physicals.{converted, other_text, shown_of, takes_in};
ghost use Rattle.measured_values.specs.Physicals.{text_in};

use crate::conversion::Conversion;
use crate::physical::Physical;
use crate::raw::Raw;
use crate::text_table::{TextRow, TextTable};

/// The physical value of a raw one (ASAM MCD-2 MC, COMPU_METHOD).
///
/// The numbers of LINEAR and RAT_FUNC are computed in `f64`, of the raw value's nearest `f64`; of a
/// FLOAT32_IEEE one that an `f32` has too is an `f32` again, so that it is written like one. A
/// table gives the text of the first row that takes that number in, else its default text, else
/// the raw value itself; so do IDENTICAL and a method that isn't carried out.
pub fn physical_of<'t>(conversion: &'t Conversion, raw: Raw) -> Physical<'t>
    ensures { shown_of result ≡ converted conversion.now raw }
{
    match conversion {
        Conversion::Identical => Physical::unconverted(raw),
        Conversion::Linear { factor, offset } => {
            Physical::unconverted(raw.computed(*factor * raw.number() + *offset))
        }
        Conversion::Rational { b, c, f } => {
            Physical::unconverted(raw.computed((*f * raw.number() - *c) / *b))
        }
        Conversion::Texts(table) => match text_in(table, raw.number()) {
            Some(text) => Physical::Text(text),
            None => Physical::unconverted(raw),
        },
        Conversion::Other => Physical::unconverted(raw),
    }
}

/// The text of a number: that of the first row that takes it in, else the default text.
fn text_in(table: &TextTable, number: f64) -> Option<&str>
    ensures { option_copied result ≡ text_in table.now number }
{
    match row_of(&table.rows, number) {
        Some(row) => Some(row.text.as_str()),
        None => other_text(table),
    }
}

/// The first row that takes a number in.
fn row_of(rows: &[TextRow], number: f64) -> Option<&TextRow>
    ensures { option_copied result ≡ find (takes_in number) rows.now }
{
    rows.iter().find(|row| takes_in(row, number))
}

/// Whether a row takes a number in.
fn takes_in(row: &TextRow, number: f64) -> bool
    ensures { result ≡ takes_in number row.now }
{
    row.least <= number && number <= row.greatest
}

/// The default text.
fn other_text(table: &TextTable) -> Option<&str>
    ensures { option_copied result ≡ other_text table.now }
{
    Some(table.other.as_ref()?.as_str())
}
