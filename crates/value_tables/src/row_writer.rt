//! Writes the rows of values.
ghost use Rattle.std.specs.Prelude.{◌≡◌, ◌^◌, ◌<◌, ◌≤◌, ◌∷◌, [], ℕ, List, OnOk, Option, Some};
ghost use Rattle.std.specs.Prelude.{length, string_bytes};
ghost use Rattle.std.specs.Fmt.{decimal};
ghost use Rattle.std.specs.Io.KnownBytes.{Appends};
ghost use Rattle.csv.specs.Writing.{row_text, text_written};
ghost use Rattle.measured_values.specs.Texts.{GrowsBy};
ghost use Rattle.sample_tables.specs.Rows.{IsBetweenRows, one_or_zero, rfc_4180};
ghost use Rattle.value_tables.specs.Fields.{HasFieldMore, HasFields};
ghost use Rattle.value_tables.specs.Lists.{HasSources};
ghost use Rattle.value_tables.specs.ValueRows.{HasCells, HasNames, IsRow, IsTime};
ghost use Rattle.value_tables.specs.ValueRows.{front_heads, heads, time_unit, with_unit};
ghost use Rattle.value_tables.specs.Values.{IsCellOf, raw_at};

use crate::column::Column;
use crate::fields::{end_row, put_field};
use crate::list_columns::ListColumns;
use crate::source::Source;
use crate::value::{raw_at, write_value};
use csv::{Error, Writer};
use daq_reader::SampleView;
use itoa::Buffer;
use measured_values::{Tick, push_seconds};
use sample_tables::{Spot, decimal, one_or_zero};
use std::alloc::AllocError;
use std::io::{ErrorKind, Write};

/// A writer of rows, with the text of a field, and how long a tick is, if that is known.
#[derive(Drop)]
pub struct RowWriter<W: Write + Drop> {
    pub rows: Writer<W>,
    pub cell: String,
    pub tick: Option<Tick>,
}

impl<W: Write + Drop> RowWriter<W> {
    /// The row of the names of the columns.
    pub fn write_heads(&mut self, columns: &[Column<'_>]) -> Result<(), ErrorKind>
        requires between { IsBetweenRows self.old.rows }
        requires few { length columns.now < 2 ^ 63 }
        ensures text { OnOk result (Appends (text_written W.contents self.old.rows)
            (text_written W.contents self.new.rows)
            (row_text rfc_4180 (heads self.old.tick columns.now))) }
        ensures between { OnOk result (IsBetweenRows self.new.rows) }
        ensures tick { self.new.tick ≡ self.old.tick }
    {
        let RowWriter { rows, cell, tick } = self;
        write_head_front(rows, cell, *tick)?;
        write_names(rows, cell, columns)?;
        end(rows)
    }

    /// The row of a sample of a list, which stands at a spot.
    pub fn write_row(
        &mut self,
        columns: &[Column<'_>],
        list: &ListColumns,
        sample: &SampleView<'_>,
        at: Spot,
    ) -> Result<(), ErrorKind>
        requires between { IsBetweenRows self.old.rows }
        requires sources { HasSources columns.now list.now }
        requires few { length columns.now < 2 ^ 63 }
        ensures text { OnOk result ((text : List ℕ)
            × IsRow self.old.tick columns.now list.now.shape at sample.now.sample text
            × Appends (text_written W.contents self.old.rows)
            (text_written W.contents self.new.rows) text) }
        ensures between { OnOk result (IsBetweenRows self.new.rows) }
        ensures tick { self.new.tick ≡ self.old.tick }
    {
        let RowWriter { rows, cell, tick } = self;
        write_front(
            rows,
            cell,
            *tick,
            at.time,
            list.shape.list(),
            sample.overload(),
        )?;
        write_cells(rows, cell, columns, &list.sources, sample)?;
        end(rows)
    }
}

/// The names of the time, of the list, and of the overload indication.
fn write_head_front<W: Write + Drop>(
    rows: &mut Writer<W>,
    cell: &mut String,
    tick: Option<Tick>,
) -> Result<(), ErrorKind>
    requires { IsBetweenRows rows.old }
    ensures { OnOk result (HasFields W.contents (text_written W.contents rows.old)
        (front_heads tick) rows.new) }
{
    put_head(rows, cell, "time", time_unit(tick))?;
    put(rows, b"list")?;
    put(rows, b"overload")
}

/// The unit of times.
fn time_unit(tick: Option<Tick>) -> &'static str
    ensures { result.now ≡ time_unit tick }
{
    match tick {
        Some(_) => "s",
        None => "ticks",
    }
}

/// The names of columns.
fn write_names<W: Write + Drop>(
    rows: &mut Writer<W>,
    cell: &mut String,
    columns: &[Column<'_>],
) -> Result<(), ErrorKind>
    ensures { OnOk result (HasNames W.contents rows.old rows.new columns.now) }
{
    for c in 0..columns.len() {
        let column = &columns[c];
        put_head(rows, cell, column.name, column.unit)?;
    }
    Ok(())
}

/// The front of a row: a time, the number of a list, and whether there is the overload indication.
fn write_front<W: Write + Drop>(
    rows: &mut Writer<W>,
    cell: &mut String,
    tick: Option<Tick>,
    at: Option<u64>,
    list: u8,
    overload: bool,
) -> Result<(), ErrorKind>
    requires { IsBetweenRows rows.old }
    ensures { OnOk result ((time : List ℕ) × IsTime tick at time
        × HasFields W.contents (text_written W.contents rows.old)
        (time ∷ decimal list ∷ one_or_zero overload ∷ []) rows.new) }
{
    write_time(cell, tick, at)?;
    put(rows, cell.as_bytes())?;
    put(rows, decimal(&mut Buffer::new(), list as u64))?;
    put(rows, one_or_zero(overload))
}

/// The cells of a sample, column by column.
fn write_cells<W: Write + Drop>(
    rows: &mut Writer<W>,
    cell: &mut String,
    columns: &[Column<'_>],
    sources: &[Option<Source>],
    sample: &SampleView<'_>,
) -> Result<(), ErrorKind>
    requires { length sources.now ≡ length columns.now }
    ensures { OnOk result (HasCells W.contents rows.old rows.new sample.now.sample columns.now
        sources.now) }
{
    for c in 0..columns.len() {
        write_cell(rows, cell, &columns[c], sources[c], sample)?;
    }
    Ok(())
}

/// The cell of a column.
fn write_cell<W: Write + Drop>(
    rows: &mut Writer<W>,
    cell: &mut String,
    column: &Column<'_>,
    source: Option<Source>,
    sample: &SampleView<'_>,
) -> Result<(), ErrorKind>
    ensures { OnOk result ((text : List ℕ)
        × IsCellOf column.now (raw_at sample.now.sample column.now source) text
        × HasFieldMore W.contents rows.old rows.new text) }
{
    let raw = raw_at(sample, column, source);
    write_value(cell, column, raw).map_err(|_| ErrorKind::OutOfMemory)?;
    put(rows, cell.as_bytes())
}

/// One field more.
fn put<W: Write + Drop>(rows: &mut Writer<W>, field: &[u8]) -> Result<(), ErrorKind>
    ensures { OnOk result (HasFieldMore W.contents rows.old rows.new field.now) }
{
    put_field(rows, field).map_err(|_| ErrorKind::Other)
}

/// Ends a row of two fields or more.
fn end<W: Write + Drop>(rows: &mut Writer<W>) -> Result<(), ErrorKind>
    ensures text { (before : Option (List ℕ)) (fields : List (List ℕ))
        → HasFields W.contents before fields rows.old → 2 ≤ length fields
        → OnOk result (Appends before (text_written W.contents rows.new)
        (row_text rfc_4180 fields)) }
    ensures between { (before : Option (List ℕ)) (fields : List (List ℕ))
        → HasFields W.contents before fields rows.old → OnOk result (IsBetweenRows rows.new) }
{
    end_row(rows).map_err(|_| ErrorKind::Other)
}

/// One field more: a name, with its unit in brackets if there is one.
fn put_head<W: Write + Drop>(
    rows: &mut Writer<W>,
    cell: &mut String,
    name: &str,
    unit: &str,
) -> Result<(), ErrorKind>
    ensures { OnOk result (HasFieldMore W.contents rows.old rows.new
        (with_unit name.now unit.now)) }
{
    write_head(cell, name, unit).map_err(|_| ErrorKind::OutOfMemory)?;
    put(rows, cell.as_bytes())
}

/// Makes a text a name, with its unit in brackets if there is one.
pub fn write_head(text: &mut String, name: &str, unit: &str) -> Result<(), AllocError>
    ensures { OnOk result (string_bytes text.new ≡ with_unit name.now unit.now) }
{
    text.clear();
    text.push_str(name)?;
    if unit.is_empty() {
        return Ok(());
    }
    text.push_str(" [")?;
    text.push_str(unit)?;
    text.push_str("]")
}

/// Makes a text what is written of a time.
fn write_time(text: &mut String, tick: Option<Tick>, at: Option<u64>) -> Result<(), ErrorKind>
    ensures { OnOk result (IsTime tick at (string_bytes text.new)) }
{
    text.clear();
    let Some(at) = at else {
        return Ok(());
    };
    push_time(text, tick, at).map_err(|_| ErrorKind::OutOfMemory)
}

/// Appends a time.
fn push_time(text: &mut String, tick: Option<Tick>, at: u64) -> Result<(), AllocError>
    ensures { OnOk result (GrowsBy (IsTime tick (Some at))
        (string_bytes text.old) (string_bytes text.new)) }
{
    match tick {
        Some(tick) => push_seconds(text, at, tick),
        None => text.push_str(Buffer::new().format(at)),
    }
}
