//! The values of samples in a table, one line for each column.

use crate::capture_column::CaptureColumns;
use crate::capture_sheet::CaptureSheet;
use capture_recording::CaptureSink;
use captured_samples::{ListSamples, Mark, SampleSink};
use captured_session::CapturedList;
use measured_values::Tally;
use std::alloc::{AllocError, Global};
use std::io::{self, Write};
use value_tables::{Column, physical_in, print_tally, print_tally_head};

/// Counts the values of each column in the samples that it is handed.
#[derive(Drop)]
pub struct TallyTable<'a, W: Write + Drop> {
    columns: CaptureColumns<'a>,
    tallies: Vec<Tally>,
    text: String,
    out: W,
}

impl<'a, W: Write + Drop> TallyTable<'a, W> {
    /// No values of these columns.
    pub fn new(
        alloc: Global,
        columns: Vec<Column<'a>>,
        out: W,
    ) -> Result<TallyTable<'a, W>, AllocError> {
        let mut tallies = Vec::new(alloc);
        for _ in 0..columns.len() {
            tallies.push(Tally::new())?;
        }
        Ok(TallyTable {
            columns: CaptureColumns::new(alloc, columns),
            tallies,
            text: String::new(alloc),
            out,
        })
    }

    /// Writes the head of the table, and a line for each column.
    fn write(&mut self) -> io::Result<()> {
        print_tally_head(&mut self.out)?;
        for (column, tally) in self.columns.columns().iter().zip(self.tallies.iter()) {
            print_tally(&mut self.out, &mut self.text, column, tally)?;
        }
        self.out.flush()
    }
}

impl<'a, W: Write + Drop> CaptureSheet for TallyTable<'a, W> {
    /// Prints the head of the table, and a line for each column.
    fn print(self) -> io::Result<()> {
        let mut table = self;
        table.write()
    }
}

impl<'a, W: Write + Drop> SampleSink for TallyTable<'a, W> {
    fn begin(&mut self, _number: usize, list: &CapturedList) -> Result<(), AllocError> {
        self.columns.add(list)
    }

    fn hand(&mut self, number: usize, sample: &ListSamples, _mark: Mark) {
        for (c, tally) in self.tallies.iter_mut().enumerate() {
            if let Some(raw) = self.columns.raw(number, c, sample.bytes()) {
                if let Some(column) = self.columns.columns().get(c) {
                    tally.note(physical_in(column, raw).number(raw));
                }
            }
        }
    }
}

impl<'a, W: Write + Drop> CaptureSink for TallyTable<'a, W> {
    fn set_time(&mut self, _nanoseconds: Option<i64>) {}

    fn frame(&mut self, _is_of_master: bool, _counter: u16, _packet: &[u8]) {}
}
