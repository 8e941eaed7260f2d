//! The lists of a capture as groups of a measurement file.
ghost use Rattle.std.specs.Prelude.{◌≡◌, ◌≤◌, IfOk, OnOk, length};
ghost use Rattle.captured_samples.specs.Places.{size_of};
ghost use Rattle.capture_tables.specs.FileLists.{AddsPlaced, ArePlacedIn, sample_size};

use crate::list_groups::ListGroups;
use crate::values_at::place_in;
use captured_samples::Mark;
use captured_session::{CapturedList, Element};
use mdf_file::{About, MdfFault, MdfOut};
use mdf_groups::{Front, GroupFault, GroupFile, PlacedColumn, group_name};
use std::alloc::Global;
use std::marker::Model;
use value_tables::Column;

/// A measurement file, and the groups of each set-up of a list.
///
/// Contracts see both.
#[derive(Drop)]
pub struct FileLists<O: MdfOut + Drop> {
    alloc: Global,
    file: GroupFile<O>,
    lists: Vec<ListGroups>,
}

impl<O: MdfOut + Drop> Model for FileLists<O> {
    ghost use Rattle.capture_tables.specs.FileLists.{ListsOf};

    ghost Value = { ListsOf };

    ghost view = { λ a. record { file = a.file; lists = a.lists.items } };
}

impl<O: MdfOut + Drop> FileLists<O> {
    ghost use Rattle.std.specs.Prelude.{◌≡◌, [], Err, IfErr, IfOk, IfSome, None, OnErr, OnOk};
    ghost use Rattle.std.specs.Prelude.{length, slice_get};
    ghost use Rattle.mdf_file.specs.Writing.{IsToldBy, StaysUnfinished, told_written};
    ghost use Rattle.mdf_file.specs.declared.mdf_fault.MdfFault.TheVariants.{NoGroup};
    ghost use Rattle.mdf_groups.specs.Files.{AddsGroup, IsRefused, group_name};
    ghost use Rattle.mdf_groups.specs.declared.group_fault.GroupFault.TheVariants.{File};
    ghost use Rattle.capture_tables.specs.FileLists.{AddsList, AddsListSample, sample_size};

    /// A file without lists, in an out that has no bytes.
    pub fn new(alloc: Global, about: About, out: O) -> Result<FileLists<O>, GroupFault>
        requires empty { IfSome (O.known out) (λ bytes. bytes ≡ []) }
        ensures about { IfOk result (λ all. all.file.file.about ≡ about) }
        ensures groups { IfOk result (λ all. all.file.file.groups ≡ []) }
        ensures forms { IfOk result (λ all. all.file.forms ≡ []) }
        ensures lists { IfOk result (λ all. all.lists ≡ []) }
        ensures failed { IfOk result (λ all. all.file.file.failed ≡ None) }
        ensures unfinished { IfOk result
            (λ all. StaysUnfinished (O.known out) all.file.file.bytes) }
    {
        Ok(FileLists {
            alloc,
            file: GroupFile::new(alloc, about, out)?,
            lists: Vec::new(alloc),
        })
    }

    /// The next set-up of a list. On an error the file may have groups more that no list has.
    pub fn add(&mut self, list: &CapturedList, columns: &[Column<'_>]) -> Result<(), GroupFault>
        ensures ok { OnOk result (AddsList self.old self.new list.now columns.now) }
        ensures not_failed { OnOk result (self.old.file.file.failed ≡ None) }
        ensures unfinished { OnOk result
            (StaysUnfinished self.old.file.file.bytes self.new.file.file.bytes) }

        ensures err { OnErr result (self.new.lists ≡ self.old.lists) }
    {
        let placed = placed_in(self.alloc, list, columns)?;
        let timed = self.add_group(list, Front::Seconds, &placed)?;
        let untimed = self.add_group(list, Front::Nothing, &placed)?;
        self.lists.push(ListGroups {
            timed,
            untimed,
            last: None,
        })?;
        Ok(())
    }

    /// A group of a list; gives its number.
    fn add_group(
        &mut self,
        list: &CapturedList,
        front: Front,
        placed: &[PlacedColumn<'_>],
    ) -> Result<usize, GroupFault>
        ensures number { IfOk result (λ number. number ≡ length self.old.file.file.groups) }
        ensures ok { OnOk result (AddsGroup self.old.file self.new.file
            (group_name list.now.list list.now.mode.channel) front (sample_size list.now)
            placed.now) }
        ensures not_failed { OnOk result (self.old.file.file.failed ≡ None) }
        ensures unfinished { OnOk result
            (StaysUnfinished self.old.file.file.bytes self.new.file.file.bytes) }

        ensures lists { self.new.lists ≡ self.old.lists }
    {
        let name = group_name(self.alloc, list.list(), list.mode().channel)?;
        self.file.add(name, front, sample_len(list), placed)
    }

    /// The next sample of the set-up of this number. On an error nothing is written.
    pub fn sample(
        &mut self,
        number: usize,
        time: Option<f64>,
        mark: Mark,
        bytes: &[u8],
    ) -> Result<(), GroupFault>
        ensures ok { OnOk result (AddsListSample self.old self.new number time mark bytes.now) }
        ensures not_failed { OnOk result (self.old.file.file.failed ≡ None) }
        ensures unfinished { OnOk result
            (StaysUnfinished self.old.file.file.bytes self.new.file.file.bytes) }

        ensures no_list { slice_get self.old.lists number ≡ None
            → (result ≡ Err (File NoGroup)) × (self.new ≡ self.old) }
        ensures refused { IfErr result (λ fault. IsRefused self.old.file self.new.file fault) }
        ensures err { OnErr result (self.new.lists ≡ self.old.lists) }
    {
        let Some(list) = self.lists.get(number).copied() else {
            return Err(GroupFault::File(MdfFault::NoGroup));
        };
        let group = list.group_for(time);
        self.file
            .sample(group, list.record_time(time), mark.number(), bytes)?;
        self.lists[number] = list.with_time(time);
        Ok(())
    }

    /// Writes what is left, and gives the out back. Groups without samples aren't told.
    pub fn finish(self) -> Result<O, GroupFault>
        ensures not_failed { OnOk result (self.file.file.failed ≡ None) }
        ensures told { IfOk result
            (λ out. IsToldBy self.file.file.bytes (O.known out) (told_written self.file.file)) }
    {
        self.file.finish()
    }
}

/// The columns that the samples of a list have.
fn placed_in<'a>(
    alloc: Global,
    list: &CapturedList,
    columns: &[Column<'a>],
) -> Result<Vec<PlacedColumn<'a>>, GroupFault>
    ensures { IfOk result (λ placed. ArePlacedIn list.now columns.now placed.items) }
{
    let mut placed = Vec::new(alloc);
    for column in columns {
        add_placed(list, column, &mut placed)?;
    }
    Ok(placed)
}

/// Adds a column, if the samples of a list have its bytes.
fn add_placed<'a>(
    list: &CapturedList,
    column: &Column<'a>,
    placed: &mut Vec<PlacedColumn<'a>>,
) -> Result<(), GroupFault>
    ensures { OnOk result (AddsPlaced list.now column.now placed.old.items placed.new.items) }
{
    let Some(at) = place_in(list, column.address, column.encoding.data_type) else {
        return Ok(());
    };
    let Ok(at) = u32::try_from(at) else {
        return Err(GroupFault::File(MdfFault::TooLong));
    };
    placed.push(PlacedColumn {
        column: *column,
        at,
    })?;
    Ok(())
}

/// How many bytes a sample of a list has.
fn sample_len(list: &CapturedList) -> u32
    ensures { result ≡ sample_size list.now }
{
    let mut len = 0u32;
    for odt in 0..list.odts() {
        len += entries_len(list.entries(odt));
    }
    len
}

/// How many bytes entries have.
fn entries_len(entries: &[Element]) -> u32
    requires { length entries.now ≤ 255 }
    ensures value { result ≡ size_of entries.now }
    ensures few { result ≤ 65025 }
{
    let mut len = 0u32;
    for entry in entries {
        len += entry.size as u32;
    }
    len
}
