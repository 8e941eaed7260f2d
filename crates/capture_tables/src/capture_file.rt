//! A measurement file of the samples of a capture.

use crate::file_clock::FileClock;
use crate::file_lists::FileLists;
use capture_recording::CaptureSink;
use captured_samples::{ListSamples, Mark, SampleSink};
use captured_session::CapturedList;
use mdf_file::{About, MdfOut};
use mdf_groups::GroupFault;
use std::alloc::{AllocError, Global};
use std::marker::Model;
use value_tables::Column;

/// Writes each sample that it is handed to a measurement file: a group for each set-up of a list,
/// and one more for those of its samples of which no clock tells the time. Behind the first sample
/// that can't be written there is no more.
///
/// Contracts see the file, and why no more is written to it.
#[derive(Drop)]
pub struct CaptureFile<'a, O: MdfOut + Drop> {
    columns: Vec<Column<'a>>,
    lists: FileLists<O>,
    clock: FileClock,
    failed: Option<GroupFault>,
}

impl<'a, O: MdfOut + Drop> Model for CaptureFile<'a, O> {
    ghost use Rattle.capture_tables.specs.FileLists.{CaptureFileOf};

    ghost Value = { CaptureFileOf };

    ghost view = { λ a. record { file = a.lists.file.file; failed = a.failed } };
}

impl<'a, O: MdfOut + Drop> CaptureFile<'a, O> {
    ghost use Rattle.std.specs.Prelude.{◌≡◌, [], Err, IfOk, IfSome, None, OnOk};
    ghost use Rattle.mdf_file.specs.Writing.{IsToldBy, StaysUnfinished, told_written};

    /// A file of these columns, in an out that has no bytes. Its times count from this one of the
    /// capture, in nanoseconds since 1970-01-01, UTC, or, if that isn't known, from the first
    /// sample.
    pub fn new(
        alloc: Global,
        about: About,
        start: Option<u64>,
        columns: Vec<Column<'a>>,
        out: O,
    ) -> Result<CaptureFile<'a, O>, GroupFault>
        requires empty { IfSome (O.known out) (λ bytes. bytes ≡ []) }
        ensures about { IfOk result (λ all. all.file.about ≡ about) }
        ensures groups { IfOk result (λ all. all.file.groups ≡ []) }
        ensures writes { IfOk result (λ all. (all.failed ≡ None) × (all.file.failed ≡ None)) }
        ensures unfinished { IfOk result (λ all. StaysUnfinished (O.known out) all.file.bytes) }
    {
        Ok(CaptureFile {
            columns,
            lists: FileLists::new(alloc, about, out)?,
            clock: FileClock::new(start),
            failed: None,
        })
    }

    /// Writes what is left, and gives the out back; refused if that, or a sample, can't be written.
    pub fn finish(self) -> Result<O, GroupFault>
        ensures not_failed { OnOk result
            ((self.entry.failed ≡ None) × (self.entry.file.failed ≡ None)) }
        ensures refused { IfSome self.entry.failed (λ fault. result ≡ Err fault) }
        ensures told { IfOk result
            (λ out. IsToldBy self.entry.file.bytes (O.known out) (told_written self.entry.file)) }
    {
        match self.failed {
            Some(fault) => Err(fault),
            None => self.lists.finish(),
        }
    }
}

impl<'a, O: MdfOut + Drop> SampleSink for CaptureFile<'a, O> {
    fn begin(&mut self, _number: usize, list: &CapturedList) -> Result<(), AllocError> {
        if self.failed.is_none() {
            self.failed = self.lists.add(list, &self.columns).err();
        }
        Ok(())
    }

    fn hand(&mut self, number: usize, sample: &ListSamples, mark: Mark) {
        let time = self.clock.next(sample);
        if self.failed.is_none() {
            self.failed = self.lists.sample(number, time, mark, sample.bytes()).err();
        }
    }
}

impl<'a, O: MdfOut + Drop> CaptureSink for CaptureFile<'a, O> {
    fn set_time(&mut self, nanoseconds: Option<i64>) {
        self.clock.set(nanoseconds);
    }

    fn frame(&mut self, _is_of_master: bool, _counter: u16, _packet: &[u8]) {}
}
