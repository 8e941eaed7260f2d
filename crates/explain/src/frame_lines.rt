//! Samples are written as lines of text, one for each of their frames.
ghost use Rattle.std.specs.Prelude.{◌≡◌, []};

use crate::byte_text::ByteText;
use daq_reader::{SampleLog, SampleView, Samples};
use std::alloc::AllocError;
use std::marker::Model;

/// A text that gets a line for each frame of each sample that is handed over.
#[derive(Drop)]
pub struct FrameLines {
    text: String,
    counter: u16,
    is_short: bool,
    log: SampleLog,
}

impl Model for FrameLines {
    ghost use Rattle.std.specs.Prelude.{ℕ, List};
    ghost use Rattle.daq_reader.specs.Recorded.{Recorded};

    ghost Value = { List (ℕ × Recorded) };

    ghost view = { λ a. a.log.samples };
}

impl FrameLines {
    /// Behind a text; the first frame of the first sample has this counter.
    pub fn new(text: String, counter: u16) -> FrameLines
        ensures { result ≡ [] }
    {
        FrameLines {
            text,
            counter,
            is_short: false,
            log: SampleLog::new(),
        }
    }

    /// The counter of the frame behind the last sample.
    pub fn counter(&self) -> u16 {
        self.counter
    }

    /// The text; refused if memory for a line was refused.
    pub fn into_text(self) -> Result<String, AllocError> {
        if self.is_short {
            return Err(AllocError);
        }
        Ok(self.text)
    }
}

impl Samples for FrameLines {
    ghost handed = { λ a. a };

    ghost kept = { λ _. tt };

    fn hand(&mut self, place: usize, sample: &SampleView<'_>) {
        // for the proof: clauses speak of the samples that were handed over
        self.log.note(place, sample);
        match write_sample(&mut self.text, self.counter, sample) {
            Ok(counter) => self.counter = counter,
            Err(_) => self.is_short = true,
        }
    }
}

/// Writes a line for each frame of a sample, of which the first has this counter, and returns the
/// counter behind them.
pub fn write_sample(
    text: &mut String,
    first: u16,
    sample: &SampleView<'_>,
) -> Result<u16, AllocError> {
    let mut counter = first;
    for k in 0..sample.shape().odts() {
        write_frame(text, counter, sample, k)?;
        counter = counter.wrapping_add(1);
    }
    Ok(counter)
}

/// Writes the line of the frame of ODT `k` of a sample.
fn write_frame(
    text: &mut String,
    counter: u16,
    sample: &SampleView<'_>,
    k: usize,
) -> Result<(), AllocError> {
    let list = sample.shape().list();
    write!(text, "frame {counter} list {list}, ODT {k}")?;
    if k == 0 {
        write_head(text, sample)?;
    }
    text.push_str(":")?;
    for e in 0..sample.shape().entries(k) {
        write_entry(text, sample, k, e)?;
    }
    text.push_str("\n")
}

/// Writes what the first frame of a sample has beside its entries.
fn write_head(text: &mut String, sample: &SampleView<'_>) -> Result<(), AllocError> {
    if sample.overload() {
        text.push_str(", overload")?;
    }
    match sample.stamp() {
        Some(ticks) => write!(text, ", time {ticks}"),
        None => Ok(()),
    }
}

/// Writes the address and the bytes of entry `e` of ODT `k` of a sample.
fn write_entry(
    text: &mut String,
    sample: &SampleView<'_>,
    k: usize,
    e: usize,
) -> Result<(), AllocError> {
    let Some((address, _)) = sample.shape().entry(k, e) else {
        return Ok(());
    };
    let Some(bytes) = sample.entry(k, e) else {
        return Ok(());
    };
    let bytes = ByteText { bytes };
    write!(text, " 0x{address:04x} {bytes}")
}
