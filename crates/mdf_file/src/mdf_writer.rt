//! A measurement file that is written as its records come.
ghost use Rattle.std.specs.Prelude.{◌≡◌, ◌<◌, [], IfErr, IfOk, IfSome, IsOkUnless, None, OnOk};
ghost use Rattle.std.specs.Prelude.{Err, Some, length, map, string_bytes};
ghost use Rattle.mdf_file.specs.Describing.{told_channel};
ghost use Rattle.mdf_file.specs.Writing.{GainsGroup, GainsRecord, HasFailed, IsToldBy};
ghost use Rattle.mdf_file.specs.Writing.{StaysUnfinished, group_refusal, record_refusal};
ghost use Rattle.mdf_file.specs.Writing.{told_written};

use crate::about::About;
use crate::limits::{LIMITS, Limits};
use crate::mdf_fault::MdfFault;
use crate::mdf_out::MdfOut;
use crate::new_channel::NewChannel;
use crate::open_file::OpenFile;
use crate::open_group::OpenGroup;
use std::alloc::Global;
use std::marker::Model;

/// A measurement file that is written as its records come. They wait in a buffer for each group,
/// and are written in blocks of up to 4 MiB, earlier if 32 MiB wait in all.
///
/// Contracts see what was handed in: the groups, each with its records, and why no more is taken
/// once writing or memory failed.
#[derive(Drop)]
pub struct MdfWriter<O: MdfOut + Drop> {
    alloc: Global,
    about: About,
    file: OpenFile<O>,
    failed: Option<MdfFault>,
}

impl<O: MdfOut + Drop> Model for MdfWriter<O> {
    ghost use Rattle.std.specs.Prelude.{◌≡◌, None, map};
    ghost use Rattle.mdf_file.specs.Standing.{IsStanding, seen};
    ghost use Rattle.mdf_file.specs.Writing.{Written};

    ghost Value = { Written };

    ghost view = { λ a. record {
      about = a.about;
      groups = map seen a.file.groups.items;
      failed = a.failed;
      bytes = O.known a.file.out;
    } };

    ghost invariant = { λ a. a.failed ≡ None
        → IsStanding (O.known a.file.out) a.file.place a.file.groups.items };
}

impl<O: MdfOut + Drop> MdfWriter<O> {
    /// A file that says that it isn't finished: 168 bytes of an out that had none.
    pub fn new(alloc: Global, about: About, out: O) -> Result<MdfWriter<O>, MdfFault>
        requires empty { IfSome (O.known out) (λ bytes. bytes ≡ []) }
        ensures about { IfOk result (λ writer. writer.about ≡ about) }
        ensures groups { IfOk result (λ writer. writer.groups ≡ []) }
        ensures failed { IfOk result (λ writer. writer.failed ≡ None) }
        ensures unfinished { IfOk result
            (λ writer. StaysUnfinished (O.known out) writer.bytes) }
    {
        MdfWriter::with_limits(alloc, about, out, LIMITS)
    }

    /// The same, with other limits of what waits in memory.
    pub fn with_limits(
        alloc: Global,
        about: About,
        out: O,
        limits: Limits,
    ) -> Result<MdfWriter<O>, MdfFault>
        requires empty { IfSome (O.known out) (λ bytes. bytes ≡ []) }
        ensures about { IfOk result (λ writer. writer.about ≡ about) }
        ensures groups { IfOk result (λ writer. writer.groups ≡ []) }
        ensures failed { IfOk result (λ writer. writer.failed ≡ None) }
        ensures unfinished { IfOk result
            (λ writer. StaysUnfinished (O.known out) writer.bytes) }
    {
        let file = OpenFile::begin(alloc, &about, out, limits)?;
        Ok(MdfWriter {
            alloc,
            about,
            file,
            failed: None,
        })
    }

    /// One group more, of this name, these channels, and records of so many bytes; gives its
    /// number. Refused if the writer failed before, then if a record has no bytes.
    pub fn group(
        &mut self,
        name: String,
        channels: Vec<NewChannel>,
        record_bytes: u32,
    ) -> Result<usize, MdfFault>
        ensures number { IfOk result (λ number. number ≡ length self.old.groups) }
        ensures ok { OnOk result (GainsGroup self.old self.new (record {
          name = string_bytes name;
          channels = map told_channel channels.items;
          record_bytes = record_bytes;
          records = [];
        })) }
        ensures unfinished { OnOk result (StaysUnfinished self.old.bytes self.new.bytes) }

        ensures accepted { OnOk result (group_refusal self.old record_bytes ≡ None) }
        ensures refused { IfSome (group_refusal self.old record_bytes)
            (λ fault. (result ≡ Err fault) × (self.new ≡ self.old)) }
        ensures err { group_refusal self.old record_bytes ≡ None
            → IfErr result (λ fault. HasFailed self.old self.new fault) }
    {
        if let Some(fault) = self.failed {
            return Err(fault);
        }
        if record_bytes == 0 {
            return Err(MdfFault::NoRecordBytes);
        }
        let number = self.file.groups.len();
        let group = OpenGroup::new(self.alloc, name, channels, record_bytes);
        match self.file.groups.push(group) {
            Ok(()) => Ok(number),
            Err(_) => {
                self.failed = Some(MdfFault::Memory);
                Err(MdfFault::Memory)
            }
        }
    }

    /// One record more of a group. Refused if the writer failed before, then if there is no such
    /// group, then if it hasn't the length of the records of that group.
    pub fn record(&mut self, group: usize, bytes: &[u8]) -> Result<(), MdfFault>
        ensures ok { OnOk result (GainsRecord self.old self.new group bytes.now) }
        ensures unfinished { OnOk result (StaysUnfinished self.old.bytes self.new.bytes) }

        ensures accepted { OnOk result (record_refusal self.old group bytes.now ≡ None) }
        ensures refused { IfSome (record_refusal self.old group bytes.now)
            (λ fault. (result ≡ Err fault) × (self.new ≡ self.old)) }
        ensures err { record_refusal self.old group bytes.now ≡ None
            → IfErr result (λ fault. HasFailed self.old self.new fault) }
    {
        if let Some(fault) = self.failed {
            return Err(fault);
        }
        if group >= self.file.groups.len() {
            return Err(MdfFault::NoGroup);
        }
        if bytes.len() != self.file.groups[group].told.record_bytes as usize {
            return Err(MdfFault::PartOfRecord);
        }
        match self.file.take(self.alloc, group, bytes) {
            Ok(()) => Ok(()),
            Err(fault) => {
                self.failed = Some(fault);
                Err(fault)
            }
        }
    }

    /// Writes what is left, and gives the out back. Groups without records aren't told.
    pub fn finish(self) -> Result<O, MdfFault>
        ensures not_failed { OnOk result (self.failed ≡ None) }
        ensures refused { IfSome self.failed (λ fault. result ≡ Err fault) }
        ensures told { IfOk result (λ out. IsToldBy self.bytes (O.known out) (told_written self)) }
    {
        if let Some(fault) = self.failed {
            return Err(fault);
        }
        self.file.finish(self.alloc, &self.about)
    }
}
