//! A measurement file of the samples of DAQ lists.

use crate::front::Front;
use crate::group_channels::channels_of;
use crate::group_fault::GroupFault;
use crate::placed_column::PlacedColumn;
use crate::record_form::RecordForm;
use crate::record_time::RecordTime;
use mdf_file::{About, MdfFault, MdfOut, MdfWriter, NewChannel};
use std::alloc::Global;
use std::marker::Model;

/// A measurement file that is written as samples come: its groups are numbered from 0, and each has
/// the samples of a set-up of a DAQ list.
///
/// Contracts see the file, with the records of each group, and the forms of these records.
#[derive(Drop)]
pub struct GroupFile<O: MdfOut + Drop> {
    alloc: Global,
    writer: MdfWriter<O>,
    forms: Vec<RecordForm>,
    buffer: Vec<u8>,
}

impl<O: MdfOut + Drop> Model for GroupFile<O> {
    ghost use Rattle.std.specs.Prelude.{◌≡◌, length};
    ghost use Rattle.mdf_groups.specs.Files.{FileOf};

    ghost Value = { FileOf };

    ghost view = { λ a. record { file = a.writer; forms = a.forms.items } };

    ghost invariant = { λ a. length a.forms.items ≡ length a.writer.groups };
}

impl<O: MdfOut + Drop> GroupFile<O> {
    ghost use Rattle.std.specs.Prelude.{◌≡◌, ◌≢◌, ◌<◌, [], Err, IfErr, IfOk, IfSome, IsErrOf, None};
    ghost use Rattle.std.specs.Prelude.{OnOk, false, length, map, slice_get, string_bytes};
    ghost use Rattle.mdf_file.specs.Describing.{told_channel};
    ghost use Rattle.mdf_file.specs.Writing.{IsToldBy, StaysUnfinished, told_written};
    ghost use Rattle.mdf_file.specs.declared.mdf_fault.MdfFault.TheVariants.{NoGroup};
    ghost use Rattle.mdf_groups.specs.Files.{AddsForm, AddsGroup, AddsSample, IsRefused};
    ghost use Rattle.mdf_groups.specs.Places.{SomeOutside};
    ghost use Rattle.mdf_groups.specs.Records.{is_time_for, record_len};
    ghost use Rattle.mdf_groups.specs.declared.form_fault.FormFault.TheVariants as form;
    ghost use Rattle.mdf_groups.specs.declared.forming.TheConstants.{MAX_SAMPLE};
    ghost use Rattle.mdf_groups.specs.declared.group_fault.GroupFault.TheVariants.{File, Form};
    ghost use Rattle.mdf_groups.specs.declared.group_fault.GroupFault.TheVariants.{Record};
    ghost use Rattle.mdf_groups.specs.declared.record_fault.RecordFault.TheVariants as one;

    /// A file without groups, in an out that has no bytes.
    pub fn new(alloc: Global, about: About, out: O) -> Result<GroupFile<O>, GroupFault>
        requires empty { IfSome (O.known out) (λ bytes. bytes ≡ []) }
        ensures about { IfOk result (λ groups. groups.file.about ≡ about) }
        ensures groups { IfOk result (λ groups. groups.file.groups ≡ []) }
        ensures forms { IfOk result (λ groups. groups.forms ≡ []) }
        ensures failed { IfOk result (λ groups. groups.file.failed ≡ None) }
        ensures unfinished { IfOk result
            (λ groups. StaysUnfinished (O.known out) groups.file.bytes) }
    {
        let writer = MdfWriter::new(alloc, about, out)?;
        Ok(GroupFile {
            alloc,
            writer,
            forms: Vec::new(alloc),
            buffer: Vec::new(alloc),
        })
    }

    /// One group more, of columns as they stand in samples of so many bytes; gives its number.
    pub fn add(
        &mut self,
        name: String,
        front: Front,
        sample_bytes: u32,
        columns: &[PlacedColumn<'_>],
    ) -> Result<usize, GroupFault>
        ensures number { IfOk result (λ number. number ≡ length self.old.file.groups) }
        ensures ok { OnOk result (AddsGroup self.old self.new (string_bytes name) front sample_bytes
            columns.now) }
        ensures not_failed { OnOk result (self.old.file.failed ≡ None) }
        ensures unfinished { OnOk result
            (StaysUnfinished self.old.file.bytes self.new.file.bytes) }

        ensures outside { IsErrOf result (Form form.Outside)
            → SomeOutside sample_bytes columns.now }
        ensures too_long { IsErrOf result (Form form.TooLong)
            → MAX_SAMPLE < record_len front sample_bytes (length columns.now) }
        ensures err { IfErr result (λ fault. IsRefused self.old self.new fault) }
    {
        let form = RecordForm::of(self.alloc, front, sample_bytes, columns)?;
        let channels = channels_of(self.alloc, &form, columns)?;
        Ok(self.add_form(name, channels, form)?)
    }

    /// One group more, whose records have this form; on an error neither is added.
    fn add_form(
        &mut self,
        name: String,
        channels: Vec<NewChannel>,
        form: RecordForm,
    ) -> Result<usize, MdfFault>
        ensures number { IfOk result (λ number. number ≡ length self.old.file.groups) }
        ensures ok { OnOk result (AddsForm self.old self.new (string_bytes name)
            (map told_channel channels.items) form) }
        ensures not_failed { OnOk result (self.old.file.failed ≡ None) }
        ensures unfinished { OnOk result
            (StaysUnfinished self.old.file.bytes self.new.file.bytes) }

        ensures err { IfErr result (λ fault. IsRefused self.old self.new (File fault)) }
    {
        let bytes = form.record_bytes();
        self.forms.reserve(1)?;
        let number = self.writer.group(name, channels, bytes)?;
        self.forms.push_reserved(form);
        Ok(number)
    }

    /// One sample more of a group. `mark` is 0, 1 for an overload, 2 for a gap, 3 for both.
    pub fn sample(
        &mut self,
        group: usize,
        time: RecordTime,
        mark: u8,
        sample: &[u8],
    ) -> Result<(), GroupFault>
        ensures ok { OnOk result (AddsSample self.old self.new group time mark sample.now) }
        ensures not_failed { OnOk result (self.old.file.failed ≡ None) }
        ensures unfinished { OnOk result
            (StaysUnfinished self.old.file.bytes self.new.file.bytes) }

        ensures no_group { slice_get self.old.forms group ≡ None → result ≡ Err (File NoGroup) }
        ensures wrong_time { IsErrOf result (Record one.WrongTime)
            → IfSome (slice_get self.old.forms group) (λ f. is_time_for f.front time ≡ false) }
        ensures wrong_length { IsErrOf result (Record one.WrongLength)
            → IfSome (slice_get self.old.forms group) (λ f. length sample.now ≢ f.sample_bytes) }
        ensures err { IfErr result (λ fault. IsRefused self.old self.new fault) }
    {
        let Some(form) = self.forms.get(group) else {
            return Err(GroupFault::File(MdfFault::NoGroup));
        };
        self.buffer.clear();
        form.write_record(&mut self.buffer, time, mark, sample)?;
        self.writer.record(group, &self.buffer)?;
        Ok(())
    }

    /// Writes what is left, and gives the out back. Groups without samples aren't told.
    pub fn finish(self) -> Result<O, GroupFault>
        ensures not_failed { OnOk result (self.file.failed ≡ None) }
        ensures told { IfOk result
            (λ out. IsToldBy self.file.bytes (O.known out) (told_written self.file)) }
    {
        Ok(self.writer.finish()?)
    }
}
