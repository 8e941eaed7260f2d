//! The values of samples as CSV, one row for each sample.

use crate::capture_clock::CaptureClock;
use crate::capture_column::CaptureColumns;
use crate::capture_sheet::CaptureSheet;
use crate::clocks::Clocks;
use crate::row_text::{RowText, failure_of};
use capture_recording::CaptureSink;
use captured_samples::{ListSamples, Mark, SampleSink};
use captured_session::CapturedList;
use std::alloc::{AllocError, Global};
use std::io::{self, ErrorKind, Write};
use value_tables::Column;

/// Writes each sample that it is handed as a row of CSV: its time in seconds since the first one,
/// its list, its mark, and the physical value of each column; nothing if the sample doesn't have
/// it.
///
/// The text is that of RFC 4180. After the first row that can't be written there is no more.
#[derive(Drop)]
pub struct CaptureRows<'a, W: Write + Drop> {
    columns: CaptureColumns<'a>,
    clock: CaptureClock,
    text: RowText<W>,
    failed: Option<ErrorKind>,
}

impl<'a, W: Write + Drop> CaptureRows<'a, W> {
    /// Writes the names of the columns.
    pub fn new(
        alloc: Global,
        columns: Vec<Column<'a>>,
        clocks: Clocks,
        out: W,
    ) -> CaptureRows<'a, W> {
        let mut text = RowText::new(alloc, clocks, out);
        let failed = failure_of(write_heads(&mut text, &columns));
        CaptureRows {
            columns: CaptureColumns::new(alloc, columns),
            clock: CaptureClock::new(),
            text,
            failed,
        }
    }

    /// The row of a sample.
    fn write_row(
        &mut self,
        number: usize,
        sample: &ListSamples,
        mark: Mark,
    ) -> Result<(), ErrorKind> {
        let time = self.clock.next(sample);
        self.text.put_times(time, &self.clock)?;
        self.text.put_number(sample.list().list() as u64)?;
        self.text.put_number(mark.number() as u64)?;
        for (c, column) in self.columns.columns().iter().enumerate() {
            let raw = self.columns.raw(number, c, sample.bytes());
            self.text.put_value(column, raw)?;
        }
        self.text.end()
    }
}

/// The row of the names of the columns.
fn write_heads<W: Write + Drop>(
    text: &mut RowText<W>,
    columns: &[Column<'_>],
) -> Result<(), ErrorKind> {
    text.put_time_heads()?;
    text.put("list")?;
    text.put("overload")?;
    for column in columns {
        text.put_head(column)?;
    }
    text.end()
}

impl<'a, W: Write + Drop> SampleSink for CaptureRows<'a, W> {
    fn begin(&mut self, _number: usize, list: &CapturedList) -> Result<(), AllocError> {
        self.columns.add(list)
    }

    fn hand(&mut self, number: usize, sample: &ListSamples, mark: Mark) {
        if self.failed.is_none() {
            self.failed = failure_of(self.write_row(number, sample, mark));
        }
    }
}

impl<'a, W: Write + Drop> CaptureSink for CaptureRows<'a, W> {
    fn set_time(&mut self, nanoseconds: Option<i64>) {
        self.clock.set(nanoseconds);
    }

    fn frame(&mut self, _is_of_master: bool, _counter: u16, _packet: &[u8]) {}
}

impl<'a, W: Write + Drop> CaptureSheet for CaptureRows<'a, W> {
    fn print(self) -> io::Result<()> {
        let CaptureRows { text, failed, .. } = self;
        match failed {
            Some(kind) => Err(io::Error::from(kind)),
            None => text.finish(),
        }
    }
}
