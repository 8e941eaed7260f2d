//! A measurement file as a sheet: samples are written to it as they come.
ghost use Rattle.std.specs.Prelude.{◌≡◌, IfErr, None, OnOk, slice_get};
ghost use Rattle.std.specs.Option.{option_copied};
ghost use Rattle.mdf_groups.specs.Files.{AddsSample, IsRefused};
ghost use Rattle.recording.specs.Measured.{mark_of, time_of};
ghost use Rattle.recording.specs.Outs.{KeepsUnfinished};
ghost use Rattle.value_tables.specs.Places.{joined};

use crate::file_groups::add_lists;
use crate::file_values::FileValues;
use crate::sheet::Sheet;
use daq_reader::{ListShape, SampleLog, SampleView, Samples};
use mdf_file::{About, MdfOut};
use mdf_groups::{GroupFault, GroupFile, RecordTime, seconds_of};
use measured_values::Tick;
use sample_tables::Spots;
use std::alloc::Global;
use std::io::{self, ErrorKind};
use std::marker::Model;
use std::snapshot::Snapshot;
use value_tables::push_entries;

/// Writes each sample that it is handed to a measurement file, which has a group for each DAQ list.
/// Behind the first sample that can't be written there is no more.
#[derive(Drop)]
pub struct FileSheet<'a, O: MdfOut + Drop> {
    values: FileValues<'a>,
    shapes: Vec<ListShape>,
    spots: Spots,
    bytes: Vec<u8>,
    file: GroupFile<O>,
    failed: Option<GroupFault>,
    start: Snapshot<O>,
    log: SampleLog,
}

impl<'a, O: MdfOut + Drop> Model for FileSheet<'a, O> {
    ghost use Rattle.std.specs.Prelude.{◌≡◌, None, reverse};
    ghost use Rattle.mdf_file.specs.Writing.{StaysUnfinished};
    ghost use Rattle.recording.specs.Measured.{HaveGroups};
    ghost use Rattle.recording.specs.Sheets.{FileSheetState};
    ghost use Rattle.sample_tables.specs.Spots.{KnowsSpots};

    ghost Value = { FileSheetState };

    ghost view = { λ a. record {
      about = a.file.file.about;
      tick = a.values.tick;
      columns = a.values.columns.now;
      plans = a.shapes.items;
      start = O.known a.start.value;
      samples = a.log.samples;
    } };

    ghost invariant = { λ a. KnowsSpots a.spots a.shapes.items (reverse a.log.samples)
        × (a.failed ≡ None → HaveGroups a.values.tick a.values.columns.now a.shapes.items
        (reverse a.log.samples) a.file.forms a.file.file.groups
        × StaysUnfinished (O.known a.start.value) a.file.file.bytes) };
}

impl<'a, O: MdfOut + Drop> FileSheet<'a, O> {
    ghost use Rattle.std.specs.Prelude.{◌≡◌, [], IfOk, IfSome};

    /// A file of these values, in an out that has no bytes; the samples will be those of DAQ lists
    /// of these shapes.
    pub fn new(
        alloc: Global,
        about: About,
        values: FileValues<'a>,
        shapes: Vec<ListShape>,
        out: O,
    ) -> Result<FileSheet<'a, O>, GroupFault>
        requires empty { IfSome (O.known out) (λ bytes. bytes ≡ []) }
        ensures { IfOk result (λ sheet. sheet ≡ record {
          about = about;
          tick = values.entry.tick;
          columns = values.entry.columns.now;
          plans = shapes.items;
          start = O.known out;
          samples = [];
        }) }
    {
        let spots = Spots::new(alloc, shapes.len())?;
        let start = Snapshot::of(&out);
        let mut file = GroupFile::new(alloc, about, out)?;
        add_lists(alloc, &mut file, values, &shapes)?;
        Ok(FileSheet {
            values,
            shapes,
            spots,
            bytes: Vec::new(alloc),
            file,
            failed: None,
            start,
            log: SampleLog::new(),
        })
    }
}

/// Writes a sample of a group at a time, unless something failed before, and tells what failed.
fn go_on<O: MdfOut + Drop>(
    failed: Option<GroupFault>,
    file: &mut GroupFile<O>,
    bytes: &mut Vec<u8>,
    group: usize,
    time: RecordTime,
    sample: &SampleView<'_>,
) -> Option<GroupFault>
    ensures before { result ≡ None → failed ≡ None }
    ensures sample { result ≡ None → AddsSample file.old file.new group time
        (mark_of sample.now.sample.overload) (joined sample.now.sample) }
    ensures unfinished { result ≡ None
        → KeepsUnfinished file.old.file.bytes file.new.file.bytes }
    ensures about { file.new.file.about ≡ file.old.file.about }
{
    if failed.is_some() {
        return failed;
    }
    write(file, bytes, group, time, sample).err()
}

/// Writes a sample of a group at a time.
fn write<O: MdfOut + Drop>(
    file: &mut GroupFile<O>,
    bytes: &mut Vec<u8>,
    group: usize,
    time: RecordTime,
    sample: &SampleView<'_>,
) -> Result<(), GroupFault>
    ensures sample { OnOk result (AddsSample file.old file.new group time
        (mark_of sample.now.sample.overload) (joined sample.now.sample)) }
    ensures unfinished { OnOk result
        (KeepsUnfinished file.old.file.bytes file.new.file.bytes) }
    ensures err { IfErr result (λ fault. IsRefused file.old file.new fault) }
{
    bytes.clear();
    push_entries(bytes, sample)?;
    file.sample(group, time, mark_of(sample.overload()), bytes)
}

/// The mark of a sample.
fn mark_of(overload: bool) -> u8
    ensures { result ≡ mark_of overload }
{
    if overload { 1 } else { 0 }
}

/// The time of a record: so many ticks, in seconds if it is known how long a tick is.
fn time_of(at: Option<u64>, tick: Option<Tick>) -> RecordTime
    ensures { result ≡ time_of tick at }
{
    match (at, tick) {
        (Some(at), Some(tick)) => RecordTime::Seconds(seconds_of(at, tick)),
        (Some(at), None) => RecordTime::Ticks(at),
        (None, _) => RecordTime::Unknown,
    }
}

impl<'a, O: MdfOut + Drop> Samples for FileSheet<'a, O> {
    ghost use Rattle.recording.specs.Sheets.{FileSheetStart};

    ghost handed = { λ a. a.samples };

    ghost Kept = { FileSheetStart };

    ghost kept = { λ a. record {
      about = a.about;
      tick = a.tick;
      columns = a.columns;
      plans = a.plans;
      start = a.start;
    } };

    /// Writes the sample.
    fn hand(&mut self, place: usize, sample: &SampleView<'_>) {
        let shape = shape_at(&self.shapes, place);
        let at = self.spots.next(shape, place, sample.stamp());
        let time = time_of(at.time, self.values.tick);
        let failed = self.failed;
        self.failed = go_on(failed, &mut self.file, &mut self.bytes, place, time, sample);
        // for the proof: clauses speak of the samples that were handed over
        self.log.note(place, sample);
    }
}

impl<'a, O: MdfOut + Drop> Sheet for FileSheet<'a, O> {
    ghost use Rattle.std.proofs.Common.{subst};
    ghost use Rattle.recording.specs.Measured.{IsMeasured};

    type Out = O;

    ghost IsPrinted = { λ a samples out. IsMeasured a.about a.tick a.columns a.plans samples
        a.start (O.known out) };

    ghost by_kept = { λ a b samples out same.
        subst (λ kept. IsMeasured kept.about kept.tick kept.columns kept.plans samples
        kept.start (O.known out)) same };

    fn print(self) -> io::Result<O> {
        if let Some(fault) = self.failed {
            return Err(error_of(fault));
        }
        self.file.finish().map_err(error_of)
    }
}

/// The shape of the list at a place; `None` exactly if there is none.
fn shape_at(shapes: &[ListShape], place: usize) -> Option<&ListShape>
    ensures { option_copied result ≡ slice_get shapes.now place }
{
    shapes.get(place)
}

/// A fault as an error of the output.
fn error_of(fault: GroupFault) -> io::Error {
    if fault.is_memory() {
        return io::Error::from(ErrorKind::OutOfMemory);
    }
    io::Error::from(ErrorKind::Other)
}
