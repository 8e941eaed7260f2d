//! The values of samples become curves, and are printed as a picture.
ghost use Rattle.std.specs.Prelude.{◌≡◌, [], ℕ, IfOk, List, OnOk};
ghost use Rattle.std.specs.Io.KnownBytes.{Appends};
ghost use Rattle.sample_picture.specs.Shown.{IsClosed};

use crate::column::Column;
use crate::list_columns::{ListColumns, list_at, lists_of};
use crate::value::number_at;
use curve_picture::{CurveAxis, CurvePicture};
use daq_reader::{ListShape, SampleLog, SampleView, Samples};
use measured_values::{Conversion, TextTable};
use sample_tables::Places;
use std::alloc::{AllocError, Global};
use std::io::{self, Write};
use std::marker::Model;

/// The curves of the columns in the samples that it is handed, in a row for each column.
#[derive(Drop)]
pub struct ValueCurves<'a> {
    columns: Vec<Column<'a>>,
    tables: Vec<Option<&'a TextTable>>,
    lists: Vec<ListColumns>,
    places: Places,
    picture: CurvePicture,
    log: SampleLog,
}

impl<'a> Model for ValueCurves<'a> {
    ghost use Rattle.std.specs.Prelude.{ℕ, List};
    ghost use Rattle.daq_reader.specs.Recorded.{Recorded};

    ghost Value = { List (ℕ × Recorded) };

    ghost view = { λ a. a.log.samples };
}

impl<'a> ValueCurves<'a> {
    /// No values of these columns; the samples will be those of DAQ lists of these shapes, at these
    /// places of the axis. Lack of memory is the only fault.
    pub fn new(
        alloc: Global,
        columns: Vec<Column<'a>>,
        shapes: Vec<ListShape>,
        places: Places,
    ) -> Result<ValueCurves<'a>, AllocError>
        ensures { IfOk result (λ curves. curves ≡ []) }
    {
        let mut picture = CurvePicture::new(alloc);
        add_rows(&mut picture, &columns)?;
        let tables = tables_of(alloc, &columns)?;
        let lists = lists_of(alloc, shapes, &columns)?;
        Ok(ValueCurves {
            columns,
            tables,
            lists,
            places,
            picture,
            log: SampleLog::new(),
        })
    }

    /// Writes the picture as SVG.
    pub fn print<W: Write>(&self, out: &mut W, axis: CurveAxis) -> io::Result<()>
        ensures { OnOk result ((text : List ℕ) × IsClosed text
            × Appends (W.contents out.old) (W.contents out.new) text) }
    {
        self.picture.print(out, &self.tables, axis)?;
        out.flush()
    }
}

impl<'a> Samples for ValueCurves<'a> {
    ghost handed = { λ a. a };

    ghost kept = { λ _. tt };

    /// The values of the sample stand in the rows of their columns.
    fn hand(&mut self, place: usize, sample: &SampleView<'_>) {
        let at = self.places.next(place, sample.stamp());
        if let Some(list) = list_at(&self.lists, place) {
            draw(&mut self.picture, &self.columns, list, sample, at);
        }
        // for the proof: clauses speak of the samples that were handed over
        self.log.note(place, sample);
    }
}

/// Adds a row for each column.
fn add_rows(picture: &mut CurvePicture, columns: &[Column<'_>]) -> Result<(), AllocError> {
    for column in columns {
        picture.add_row(column.name, column.unit)?;
    }
    Ok(())
}

/// The texts of each column's values.
fn tables_of<'a>(
    alloc: Global,
    columns: &[Column<'a>],
) -> Result<Vec<Option<&'a TextTable>>, AllocError> {
    let mut tables = Vec::with_capacity(alloc, columns.len())?;
    for column in columns {
        tables.push(table_of(column))?;
    }
    Ok(tables)
}

/// The texts of a column's values, if it has such.
fn table_of<'a>(column: &Column<'a>) -> Option<&'a TextTable> {
    match column.conversion {
        Some(Conversion::Texts(table)) => Some(table),
        _ => None,
    }
}

/// Draws the value of each column in a sample of a list, at a place of the axis.
fn draw(
    picture: &mut CurvePicture,
    columns: &[Column<'_>],
    list: &ListColumns,
    sample: &SampleView<'_>,
    at: u64,
) {
    let lost = sample.overload();
    for (row, column) in columns.iter().enumerate() {
        let source = list.sources.get(row).copied().flatten();
        if let Some(number) = number_at(sample, column, source) {
            picture.value(row, at, number, lost);
        }
    }
}
