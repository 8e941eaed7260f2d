//! The elements of samples as CSV, one row for each element.
ghost use Rattle.std.specs.Prelude.{◌≤◌, length};

use crate::capture_clock::CaptureClock;
use crate::capture_sheet::CaptureSheet;
use crate::clocks::Clocks;
use crate::row_text::{RowText, failure_of};
use capture_recording::CaptureSink;
use captured_samples::{ListSamples, Mark, SampleSink};
use captured_session::{CapturedList, Element};
use std::alloc::{AllocError, Global};
use std::io::{self, ErrorKind, Write};

/// Writes each element of each sample that it is handed as a row of CSV.
#[derive(Drop)]
pub struct ElementRows<W: Write + Drop> {
    samples: Vec<u64>,
    clock: CaptureClock,
    text: RowText<W>,
    failed: Option<ErrorKind>,
}

/// The names of the columns behind the times.
const HEADS: [&str; 10] = [
    "ticks",
    "list",
    "odt",
    "entry",
    "sample",
    "extension",
    "address",
    "size",
    "hex",
    "overload",
];

/// The front of the rows of a sample, and its mark.
#[derive(Clone, Copy)]
struct Front {
    ticks: Option<u32>,
    list: u16,
    sample: u64,
    mark: u8,
}

impl<W: Write + Drop> ElementRows<W> {
    /// Writes the names of the columns.
    pub fn new(alloc: Global, clocks: Clocks, out: W) -> ElementRows<W> {
        let mut text = RowText::new(alloc, clocks, out);
        let failed = failure_of(write_heads(&mut text));
        ElementRows {
            samples: Vec::new(alloc),
            clock: CaptureClock::new(),
            text,
            failed,
        }
    }

    /// The number of the next sample of a set-up of a list.
    fn next_sample(&mut self, number: usize) -> u64 {
        let Some(samples) = self.samples.get_mut(number) else {
            return 0;
        };
        let sample = *samples;
        *samples = sample.saturating_add(1);
        sample
    }

    /// The rows of a sample.
    fn write_sample(&mut self, front: Front, sample: &ListSamples) -> Result<(), ErrorKind> {
        let list = sample.list();
        let time = self.clock.next(sample);
        let mut rest = sample.bytes();
        for odt in 0..list.odts() {
            for (e, element) in list.entries(odt).iter().enumerate() {
                let (bytes, behind) = split_at(rest, element.size as usize);
                self.text.put_times(time, &self.clock)?;
                write_place(&mut self.text, front, odt, e, element)?;
                self.text.put_hex(bytes)?;
                self.text.put_number(front.mark as u64)?;
                self.text.end()?;
                rest = behind;
            }
        }
        Ok(())
    }
}

/// So many bytes, and those behind them.
fn split_at(bytes: &[u8], n: usize) -> (&[u8], &[u8])
    ensures { length result.0.now ≤ n }
{
    if n <= bytes.len() {
        return bytes.split_at(n);
    }
    (bytes, &[])
}

/// The row of the names of the columns.
fn write_heads<W: Write + Drop>(text: &mut RowText<W>) -> Result<(), ErrorKind> {
    text.put_time_heads()?;
    for head in HEADS {
        text.put(head)?;
    }
    text.end()
}

/// Where an element stands, and what it is.
fn write_place<W: Write + Drop>(
    text: &mut RowText<W>,
    front: Front,
    odt: usize,
    entry: usize,
    element: &Element,
) -> Result<(), ErrorKind> {
    text.put_ticks(front.ticks)?;
    text.put_number(front.list as u64)?;
    text.put_number(odt as u64)?;
    text.put_number(entry as u64)?;
    text.put_number(front.sample)?;
    text.put_number(element.extension as u64)?;
    text.put_number(element.address as u64)?;
    text.put_number(element.size as u64)
}

impl<W: Write + Drop> SampleSink for ElementRows<W> {
    fn begin(&mut self, _number: usize, _list: &CapturedList) -> Result<(), AllocError> {
        self.samples.push(0)?;
        Ok(())
    }

    fn hand(&mut self, number: usize, sample: &ListSamples, mark: Mark) {
        let front = Front {
            ticks: sample.ticks(),
            list: sample.list().list(),
            sample: self.next_sample(number),
            mark: mark.number(),
        };
        if self.failed.is_none() {
            self.failed = failure_of(self.write_sample(front, sample));
        }
    }
}

impl<W: Write + Drop> CaptureSink for ElementRows<W> {
    fn set_time(&mut self, nanoseconds: Option<i64>) {
        self.clock.set(nanoseconds);
    }

    fn frame(&mut self, _is_of_master: bool, _counter: u16, _packet: &[u8]) {}
}

impl<W: Write + Drop> CaptureSheet for ElementRows<W> {
    fn print(self) -> io::Result<()> {
        let ElementRows { text, failed, .. } = self;
        match failed {
            Some(kind) => Err(io::Error::from(kind)),
            None => text.finish(),
        }
    }
}
