//! A file that takes records of its groups.
ghost use Rattle.std.specs.Prelude.{◌≡◌, ◌+◌, ◌<◌, ◌++◌, ◌∷◌, [], All, IfOk, OnErr, OnOk};
ghost use Rattle.std.specs.Prelude.{IfSome, length, map, take};
ghost use Rattle.mdf_file.specs.Ending.{told_file};
ghost use Rattle.mdf_file.specs.Standing.{IsEmpty, IsStanding, seen};
ghost use Rattle.mdf_file.specs.Writing.{HasMore, IsToldBy, StaysUnfinished, told_groups};

use crate::about::About;
use crate::data_out::append_block;
use crate::ending::{file_end, front_bytes};
use crate::history::read_time;
use crate::limits::Limits;
use crate::mdf_fault::MdfFault;
use crate::mdf_out::MdfOut;
use crate::open_group::OpenGroup;
use crate::told_groups::groups_with_records;
use mdf_blocks::{FileHeader, FileState};
use std::alloc::Global;

/// A file that takes records of its groups: what it begins with was written, and blocks of records
/// up to a place.
#[derive(Drop)]
pub struct OpenFile<O> {
    pub out: O,
    /// Where the next block begins.
    pub place: u64,
    pub groups: Vec<OpenGroup>,
    /// How many bytes of records wait in all groups.
    pub waiting: usize,
    pub limits: Limits,
}

impl<O: MdfOut + Drop> OpenFile<O> {
    /// Writes what an unfinished file begins with.
    pub fn begin(
        alloc: Global,
        about: &About,
        mut out: O,
        limits: Limits,
    ) -> Result<OpenFile<O>, MdfFault>
        requires empty { IfSome (O.known out) (λ bytes. bytes ≡ []) }
        ensures standing { IfOk result
            (λ file. IsStanding (O.known file.out) file.place file.groups.items) }
        ensures groups { IfOk result (λ file. file.groups.items ≡ []) }
        ensures unfinished { IfOk result
            (λ file. StaysUnfinished (O.known out) (O.known file.out)) }
    {
        read_time(about.start);
        let header = FileHeader {
            first_group: 0,
            first_history: 0,
            comment: 0,
            start: about.start,
        };
        let state = FileState::Unfinished {
            cycles: true,
            last_data: true,
            last_list: true,
        };
        let front = front_bytes(alloc, state, &about.program, &header)?;
        out.append(&front)?;
        Ok(OpenFile {
            out,
            place: 168,
            groups: Vec::new(alloc),
            waiting: 0,
            limits,
        })
    }

    /// Writes what waits of a group.
    fn flush(&mut self, alloc: Global, number: usize) -> Result<(), MdfFault>
        requires within { number < length self.old.groups.items }
        requires standing { IsStanding (O.known self.old.out) self.old.place self.old.groups.items }
        ensures standing { OnOk result
            (IsStanding (O.known self.new.out) self.new.place self.new.groups.items) }
        ensures unfinished { OnOk result
            (StaysUnfinished (O.known self.old.out) (O.known self.new.out)) }
        ensures empty { OnOk result (All IsEmpty (take number self.old.groups.items)
            → All IsEmpty (take (number + 1) self.new.groups.items)) }
        ensures seen { map seen self.new.groups.items ≡ map seen self.old.groups.items }
    {
        let group = &mut self.groups[number];
        let len = group.buffer.len();
        if len == 0 {
            return Ok(());
        }
        let next = append_block(&mut self.out, self.place, &group.buffer)?;
        group.list_block(alloc, self.place)?;
        self.place = next;
        self.waiting = self.waiting.saturating_sub(len);
        Ok(())
    }

    /// Writes what waits of all groups.
    fn flush_all(&mut self, alloc: Global) -> Result<(), MdfFault>
        requires standing { IsStanding (O.known self.old.out) self.old.place self.old.groups.items }
        ensures standing { OnOk result
            (IsStanding (O.known self.new.out) self.new.place self.new.groups.items) }
        ensures unfinished { OnOk result
            (StaysUnfinished (O.known self.old.out) (O.known self.new.out)) }
        ensures empty { OnOk result (All IsEmpty self.new.groups.items) }
        ensures seen { map seen self.new.groups.items ≡ map seen self.old.groups.items }
    {
        for number in 0..self.groups.len() {
            self.flush(alloc, number)?;
        }
        Ok(())
    }

    /// Makes room for a record in a group's buffer.
    fn make_room(&mut self, alloc: Global, number: usize, more: usize) -> Result<(), MdfFault>
        requires within { number < length self.old.groups.items }
        requires standing { IsStanding (O.known self.old.out) self.old.place self.old.groups.items }
        ensures standing { OnOk result
            (IsStanding (O.known self.new.out) self.new.place self.new.groups.items) }
        ensures unfinished { OnOk result
            (StaysUnfinished (O.known self.old.out) (O.known self.new.out)) }
        ensures seen { map seen self.new.groups.items ≡ map seen self.old.groups.items }
    {
        if !self.groups[number].is_full(more, self.limits.group) {
            return Ok(());
        }
        self.flush(alloc, number)
    }

    /// Makes room for a record in the buffers of all groups together.
    fn make_room_in_all(&mut self, alloc: Global, more: usize) -> Result<(), MdfFault>
        requires standing { IsStanding (O.known self.old.out) self.old.place self.old.groups.items }
        ensures standing { OnOk result
            (IsStanding (O.known self.new.out) self.new.place self.new.groups.items) }
        ensures unfinished { OnOk result
            (StaysUnfinished (O.known self.old.out) (O.known self.new.out)) }
        ensures seen { map seen self.new.groups.items ≡ map seen self.old.groups.items }
    {
        if self.waiting.saturating_add(more) <= self.limits.all {
            return Ok(());
        }
        self.flush_all(alloc)
    }

    /// Puts a record into its group's buffer.
    fn keep(&mut self, number: usize, record: &[u8]) -> Result<(), MdfFault>
        requires within { number < length self.old.groups.items }
        requires some { 0 < length «record».now }
        requires standing { IsStanding (O.known self.old.out) self.old.place self.old.groups.items }
        ensures standing { OnOk result
            (IsStanding (O.known self.new.out) self.new.place self.new.groups.items) }
        ensures out { self.new.out ≡ self.old.out }
        ensures seen { OnOk result (HasMore (map seen self.old.groups.items)
            (map seen self.new.groups.items) number «record».now) }
        ensures err { OnErr result
            (map seen self.new.groups.items ≡ map seen self.old.groups.items) }
    {
        self.groups[number].push(record)?;
        self.waiting = self.waiting.saturating_add(record.len());
        Ok(())
    }

    /// Takes a record of a group, and writes first what has no more room.
    pub fn take(&mut self, alloc: Global, number: usize, record: &[u8]) -> Result<(), MdfFault>
        requires within { number < length self.old.groups.items }
        requires some { 0 < length «record».now }
        requires standing { IsStanding (O.known self.old.out) self.old.place self.old.groups.items }
        ensures standing { OnOk result
            (IsStanding (O.known self.new.out) self.new.place self.new.groups.items) }
        ensures unfinished { OnOk result
            (StaysUnfinished (O.known self.old.out) (O.known self.new.out)) }
        ensures seen { OnOk result (HasMore (map seen self.old.groups.items)
            (map seen self.new.groups.items) number «record».now) }
        ensures err { OnErr result
            (map seen self.new.groups.items ≡ map seen self.old.groups.items) }
    {
        self.make_room(alloc, number, record.len())?;
        self.make_room_in_all(alloc, record.len())?;
        self.keep(number, record)
    }

    /// Writes what is left, and what stands in front of it last.
    pub fn finish(mut self, alloc: Global, about: &About) -> Result<O, MdfFault>
        requires standing { IsStanding (O.known self.out) self.place self.groups.items }
        ensures { IfOk result (λ out. IsToldBy (O.known self.out) (O.known out)
            (told_file about.now (told_groups (map seen self.groups.items)))) }
    {
        self.flush_all(alloc)?;
        self.end(alloc, about)
    }

    /// Writes the end of a file of which no record waits.
    fn end(self, alloc: Global, about: &About) -> Result<O, MdfFault>
        requires empty { All IsEmpty self.groups.items }
        requires standing { IsStanding (O.known self.out) self.place self.groups.items }
        ensures { IfOk result (λ out. IsToldBy (O.known self.out) (O.known out)
            (told_file about.now (told_groups (map seen self.groups.items)))) }
    {
        let mut out = self.out;
        let groups = groups_with_records(alloc, self.groups)?;
        let end = file_end(alloc, about, self.place, &groups)?;
        out.append(&end.behind)?;
        out.write_front(&end.front)?;
        Ok(out)
    }
}
