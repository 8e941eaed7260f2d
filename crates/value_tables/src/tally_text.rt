//! Prints what there is of the values of each column.
ghost use Rattle.std.specs.Prelude.{ℕ, List, OnOk, string_bytes};
ghost use Rattle.std.specs.Float.{Float};
ghost use Rattle.std.specs.Fmt.{decimal};
ghost use Rattle.std.specs.Io.KnownBytes.{Appends};
ghost use Rattle.measured_values.specs.Tallies.{IsTally};
ghost use Rattle.measured_values.specs.Physicals.{written};
ghost use Rattle.measured_values.specs.Texts.{IsNumberText};
ghost use Rattle.sample_tables.specs.Tables.{right_aligned};
ghost use Rattle.value_tables.specs.TallyText.{IsLine, IsNumberCell, IsTable};
ghost use Rattle.value_tables.specs.TallyText.{IsWithoutZero, cell_text, head_line, name_text};
ghost use Rattle.value_tables.specs.ValueRows.{head_of};

use crate::column::Column;
use crate::row_writer::write_head;
use crate::value_tallies::ValueTallies;
use measured_values::{DataType, Physical, Raw, Tally, push_physical};
use std::alloc::{AllocError, Global};
use std::io::{self, ErrorKind, Write};

/// Prints the head of the table, and a line for each column in its order: how many values it has,
/// the least and the greatest of them, their mean, its name, and its unit in brackets if it has
/// one. A number is printed as `push_physical` writes what `Raw::written` makes of it, without `.0`
/// at its end; `-` if there is none.
pub fn print_tallies<W: Write>(
    alloc: Global,
    out: &mut W,
    tallies: &ValueTallies<'_>,
) -> io::Result<()>
    ensures { OnOk result ((text : List ℕ)
        × IsTable tallies.now.plans tallies.now.columns tallies.now.samples text
        × Appends (W.contents out.old) (W.contents out.new) text) }
{
    print_head(out)?;
    let mut text = String::new(alloc);
    let columns = tallies.columns();
    for c in 0..columns.len() {
        let Some(tally) = tallies.tally(c) else {
            unreachable!();
        };
        print_line(out, &mut text, &columns[c], &tally)?;
    }
    out.flush()
}

/// Prints the head of the table.
pub fn print_head<W: Write>(out: &mut W) -> io::Result<()>
    ensures { OnOk result (Appends (W.contents out.old) (W.contents out.new) head_line) }
{
    writeln!(
        out,
        "     values          least       greatest           mean  measurement"
    )
}

/// Prints the line of a column.
pub fn print_line<W: Write>(
    out: &mut W,
    text: &mut String,
    column: &Column<'_>,
    tally: &Tally,
) -> io::Result<()>
    ensures { (values : List Float) → IsTally tally.now values → OnOk result ((line : List ℕ)
        × IsLine values column.now line
        × Appends (W.contents out.old) (W.contents out.new) line) }
{
    let data_type = column.encoding.data_type;
    print_count(out, tally.count())?;
    print_number(out, text, data_type, tally.least())?;
    print_number(out, text, data_type, tally.greatest())?;
    print_number(out, text, data_type, tally.mean())?;
    print_name(out, text, column)
}

/// Prints how many values there are.
fn print_count<W: Write>(out: &mut W, values: u64) -> io::Result<()>
    ensures { OnOk result (Appends (W.contents out.old) (W.contents out.new)
        (right_aligned 11 (decimal values))) }
{
    write!(out, "{values:>11}")
}

/// Prints a number of values of a data type, or `-` if there is none.
fn print_number<W: Write>(
    out: &mut W,
    text: &mut String,
    data_type: DataType,
    number: Option<f64>,
) -> io::Result<()>
    ensures { OnOk result ((cell : List ℕ) × IsNumberCell data_type number cell
        × Appends (W.contents out.old) (W.contents out.new) cell) }
{
    let Some(number) = number else {
        return print_cell(out, "-");
    };
    write_number(text, data_type, number).map_err(|_| ErrorKind::OutOfMemory)?;
    print_cell(out, without_zero(text.as_str()))
}

/// Prints a text, right-aligned behind a space.
fn print_cell<W: Write>(out: &mut W, text: &str) -> io::Result<()>
    ensures { OnOk result (Appends (W.contents out.old) (W.contents out.new)
        (cell_text text.now)) }
{
    write!(out, " {text:>14}")
}

/// Makes a text that of a number of values of a data type.
fn write_number(text: &mut String, data_type: DataType, number: f64) -> Result<(), AllocError>
    ensures { OnOk result (IsNumberText (written data_type number) (string_bytes text.new)) }
{
    text.clear();
    push_physical(
        text,
        &Physical::unconverted(Raw::written(data_type, number)),
    )
}

/// A text without the `.0` at its end, if it has one.
fn without_zero(text: &str) -> &str
    ensures { IsWithoutZero text.now result.now }
{
    match text.strip_suffix(".0") {
        Some(front) => front,
        None => text,
    }
}

/// Prints the name of a column, with its unit in brackets if it has one, and ends the line.
fn print_name<W: Write>(out: &mut W, text: &mut String, column: &Column<'_>) -> io::Result<()>
    ensures { OnOk result (Appends (W.contents out.old) (W.contents out.new)
        (name_text (head_of column.now))) }
{
    write_head(text, column.name, column.unit).map_err(|_| ErrorKind::OutOfMemory)?;
    writeln!(out, "  {text}")
}
