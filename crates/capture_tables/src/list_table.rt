//! The samples of lists in a table, one line for each list.

use crate::capture_sheet::CaptureSheet;
use capture_recording::CaptureSink;
use captured_samples::{ListSamples, Mark, SampleSink};
use captured_session::CapturedList;
use sample_tables::{Tally, print_head, print_tally};
use std::alloc::{AllocError, Global};
use std::io::{self, Write};

/// A set-up of a list, and what there is of its samples.
#[derive(Clone, Copy)]
struct Line {
    list: u16,
    channel: u16,
    tally: Tally,
}

/// Counts the samples of each set-up of a list.
#[derive(Drop)]
pub struct ListTable<W: Write + Drop> {
    lines: Vec<Line>,
    out: W,
}

impl<W: Write + Drop> ListTable<W> {
    /// No samples.
    pub fn new(alloc: Global, out: W) -> ListTable<W> {
        ListTable {
            lines: Vec::new(alloc),
            out,
        }
    }
}

impl<W: Write + Drop> CaptureSheet for ListTable<W> {
    /// Prints the head of the table, and a line for each set-up of a list.
    fn print(self) -> io::Result<()> {
        let ListTable { lines, out } = self;
        let mut out = out;
        print_head(&mut out)?;
        for line in &lines {
            print_tally(&mut out, line.list, line.channel, line.tally)?;
        }
        out.flush()
    }
}

impl<W: Write + Drop> SampleSink for ListTable<W> {
    fn begin(&mut self, _number: usize, list: &CapturedList) -> Result<(), AllocError> {
        self.lines.push(Line {
            list: list.list(),
            channel: list.mode().channel,
            tally: Tally::NONE,
        })?;
        Ok(())
    }

    fn hand(&mut self, number: usize, sample: &ListSamples, mark: Mark) {
        if let Some(line) = self.lines.get_mut(number) {
            line.tally = line.tally.with(mark.number() > 0, sample.ticks());
        }
    }
}

impl<W: Write + Drop> CaptureSink for ListTable<W> {
    fn set_time(&mut self, _nanoseconds: Option<i64>) {}

    fn frame(&mut self, _is_of_master: bool, _counter: u16, _packet: &[u8]) {}
}
