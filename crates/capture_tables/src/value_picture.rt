//! The values of samples as curves.

use crate::capture_clock::CaptureClock;
use crate::capture_column::CaptureColumns;
use crate::capture_sheet::CaptureSheet;
use capture_recording::CaptureSink;
use captured_samples::{ListSamples, Mark, SampleSink};
use captured_session::CapturedList;
use curve_picture::{CurveAxis, CurvePicture};
use measured_values::{Conversion, TextTable, Tick};
use std::alloc::{AllocError, Global};
use std::io::{self, Write};
use value_tables::{Column, physical_in};

/// Draws the values of each column in the samples that it is handed, over the time since the first
/// of them.
#[derive(Drop)]
pub struct ValuePicture<'a, W: Write + Drop> {
    columns: CaptureColumns<'a>,
    tables: Vec<Option<&'a TextTable>>,
    clock: CaptureClock,
    tick: Option<Tick>,
    picture: CurvePicture,
    out: W,
}

impl<'a, W: Write + Drop> ValuePicture<'a, W> {
    /// No values of these columns.
    pub fn new(
        alloc: Global,
        columns: Vec<Column<'a>>,
        out: W,
    ) -> Result<ValuePicture<'a, W>, AllocError> {
        let mut picture = CurvePicture::new(alloc);
        add_rows(&mut picture, &columns)?;
        let tables = tables_of(alloc, &columns)?;
        Ok(ValuePicture {
            columns: CaptureColumns::new(alloc, columns),
            tables,
            clock: CaptureClock::new(),
            tick: None,
            picture,
            out,
        })
    }
}

impl<'a, W: Write + Drop> CaptureSheet for ValuePicture<'a, W> {
    /// Writes the picture as SVG.
    fn print(self) -> io::Result<()> {
        let ValuePicture {
            tables,
            tick,
            picture,
            out,
            ..
        } = self;
        let axis = match tick {
            Some(tick) => CurveAxis::Seconds(tick),
            None => CurveAxis::Ticks,
        };
        let mut out = out;
        picture.print(&mut out, &tables, axis)?;
        out.flush()
    }
}

/// Adds a row for each column.
fn add_rows(picture: &mut CurvePicture, columns: &[Column<'_>]) -> Result<(), AllocError> {
    for column in columns {
        picture.add_row(column.name, column.unit)?;
    }
    Ok(())
}

/// The texts of each column's values.
fn tables_of<'a>(
    alloc: Global,
    columns: &[Column<'a>],
) -> Result<Vec<Option<&'a TextTable>>, AllocError> {
    let mut tables = Vec::new(alloc);
    for column in columns {
        tables.push(table_of(column))?;
    }
    Ok(tables)
}

/// The texts of a column's values, if it has such.
fn table_of<'a>(column: &Column<'a>) -> Option<&'a TextTable> {
    match column.conversion {
        Some(Conversion::Texts(table)) => Some(table),
        _ => None,
    }
}

impl<'a, W: Write + Drop> SampleSink for ValuePicture<'a, W> {
    fn begin(&mut self, _number: usize, list: &CapturedList) -> Result<(), AllocError> {
        self.columns.add(list)
    }

    fn hand(&mut self, number: usize, sample: &ListSamples, mark: Mark) {
        let Some(time) = self.clock.next(sample) else {
            return;
        };
        let Ok(at) = u64::try_from(time.at) else {
            return;
        };
        self.tick = Some(time.tick);
        for (row, column) in self.columns.columns().iter().enumerate() {
            if let Some(raw) = self.columns.raw(number, row, sample.bytes()) {
                let value = physical_in(column, raw).number(raw);
                self.picture.value(row, at, value, mark.number() > 0);
            }
        }
    }
}

impl<'a, W: Write + Drop> CaptureSink for ValuePicture<'a, W> {
    fn set_time(&mut self, nanoseconds: Option<i64>) {
        self.clock.set(nanoseconds);
    }

    fn frame(&mut self, _is_of_master: bool, _counter: u16, _packet: &[u8]) {}
}
