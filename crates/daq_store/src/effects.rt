//! What each accepted call changes.

ghost use Rattle.std.specs.Prelude.{◌≡◌, ◌+◌, ◌<◌, ◌≤◌, ◌&&◌, ◌==◌, true, false, OnOk, OnErr};
ghost use Rattle.std.specs.Prelude.{length, map, nat_lt, slice_index_or, if◌then◌else◌};
ghost use Rattle.std.specs.Borrow.{sem};
ghost use Rattle.std.specs.List.{list_any};
ghost use Rattle.xcp_base.specs.Forms.{most_odts};
ghost use Rattle.daq_store.specs.Configuration.{IsMode};
ghost use Rattle.daq_store.specs.Inner.Effects.{some_runs, shows_odt, shows_entry, shows_unready};
ghost use Rattle.daq_store.specs.Inner.Effects.{is_unready, other_odts, lists_put, odts_put};
ghost use Rattle.daq_store.specs.Inner.Effects.{entries_put, entry_put, mode_put, start_stop_put};
ghost use Rattle.daq_store.specs.Inner.Effects.{synch_put, cleared_put, moved_on, synched};
ghost use Rattle.daq_store.specs.Inner.Lending.{LendsList};

use crate::entry::Entry;
use crate::list_state::{ListState, fresh_lists};
use crate::mode::Mode;
use crate::phase::Phase;
use crate::store::Store;
use std::alloc::AllocError;
use xcp_base::limits::{MAX_ENTRIES, MAX_ENTRY_SIZE, MAX_LISTS};

impl Store {
    ghost use Rattle.daq_store.specs.Standing.{shows_running};

    /// ALLOC_DAQ: puts fresh lists in the place of all.
    pub(crate) fn put_lists(&mut self, count: u16) -> Result<(), AllocError>
        requires { count ≤ MAX_LISTS }
        ensures ok { OnOk result (self.new ≡ lists_put self.old count) }
        ensures err { OnErr result (self.new ≡ self.old) }
    {
        let lists = fresh_lists(self.alloc, self.form, count as usize)?;
        self.lists = lists;
        self.pointer = None;
        self.phase = Phase::Daq;
        Ok(())
    }

    /// ALLOC_ODT: puts ODTs without entries in the place of those of a list.
    pub(crate) fn put_odts(&mut self, list: u16, count: u8) -> Result<(), AllocError>
        requires there { list < length self.old.lists }
        requires limit { count ≤ self.old.profile.most_odts }
        requires total { other_odts self.old list + count ≤ most_odts self.old.profile.form.id }
        requires stopped { some_runs self.old ≡ false }
        ensures ok { OnOk result (self.new ≡ odts_put self.old list count) }
        ensures err { OnErr result (self.new ≡ self.old) }
    {
        let alloc = self.alloc;
        let state = state_mut(&mut self.lists, list);
        state.conf.allocate_odts(alloc, count as usize)?;
        self.pointer = None;
        self.phase = Phase::Odt;
        Ok(())
    }

    /// ALLOC_ODT_ENTRY: puts unwritten entries in the place of those of an ODT.
    pub(crate) fn put_entries(&mut self, list: u16, odt: u8, count: u8) -> Result<(), AllocError>
        requires there { shows_odt self.old list odt ≡ true }
        requires limit { count ≤ MAX_ENTRIES }
        requires stopped { some_runs self.old ≡ false }
        ensures ok { OnOk result (self.new ≡ entries_put self.old list odt count) }
        ensures err { OnErr result (self.new ≡ self.old) }
    {
        let alloc = self.alloc;
        let state = state_mut(&mut self.lists, list);
        state
            .conf
            .allocate_entries(alloc, odt as usize, count as usize)?;
        self.pointer = None;
        self.phase = Phase::Entry;
        Ok(())
    }

    /// SET_DAQ_PTR: puts the pointer at an entry.
    pub(crate) fn put_pointer(&mut self, list: u16, odt: u8, entry: u8)
        requires { shows_entry self.old list odt entry ≡ true }
        ensures { self.new ≡ record self.old { pointer = Some (list, odt, entry) } }
    {
        self.pointer = Some((list, odt, entry));
    }

    /// WRITE_DAQ: writes an entry, and moves the pointer to the next one of the ODT, if there is
    /// one.
    pub(crate) fn put_entry(&mut self, list: u16, odt: u8, entry: u8, value: Entry)
        requires there { shows_entry self.old list odt entry ≡ true }
        requires stopped { shows_running self.old list ≡ false }
        requires size { (0 < value.size) × (value.size ≤ MAX_ENTRY_SIZE) }
        ensures { self.new ≡ entry_put self.old list odt entry value }
    {
        let state = state_mut(&mut self.lists, list);
        let entries = state.conf.entries(odt as usize);
        state.conf.write(odt as usize, entry as usize, value);
        self.pointer = next_place(list, odt, entry, entries);
    }

    /// SET_DAQ_LIST_MODE: sets the mode of a list.
    pub(crate) fn put_mode(&mut self, list: u16, mode: Mode)
        requires there { list < length self.old.lists }
        requires stopped { shows_running self.old list ≡ false }
        requires mode { IsMode mode }
        requires channel { mode.channel < self.old.profile.channels }
        ensures { self.new ≡ mode_put self.old list mode }
    {
        let state = state_mut(&mut self.lists, list);
        state.conf.set_mode(mode);
    }

    /// READ_DAQ: moves the pointer from an entry to the next one of the ODT, if there is one.
    pub(crate) fn move_on(&mut self, list: u16, odt: u8, entry: u8)
        requires { shows_entry self.old list odt entry ≡ true }
        ensures { self.new ≡ moved_on self.old list odt entry }
    {
        let entries = self.entries(list, odt);
        self.pointer = next_place(list, odt, entry, entries);
    }

    /// CLEAR_DAQ_LIST: puts a list without mode and written entries in the place of a list.
    pub(crate) fn put_cleared(&mut self, list: u16)
        requires { list < length self.old.lists }
        ensures { self.new ≡ cleared_put self.old list }
    {
        let state = state_mut(&mut self.lists, list);
        state.clear();
        self.pointer = None;
    }

    /// START_STOP_DAQ_LIST: stops, starts or selects a list.
    pub(crate) fn put_start_stop(&mut self, mode: u8, list: u16)
        requires there { list < length self.old.lists }
        requires ready { (mode == 1 && shows_unready self.old list) ≡ false }
        ensures { self.new ≡ start_stop_put self.old mode list }
    {
        let state = state_mut(&mut self.lists, list);
        state.start_stop(mode);
    }

    /// START_STOP_SYNCH: stops all lists, or starts or stops the selected ones.
    pub(crate) fn put_synch(&mut self, mode: u8)
        requires { (mode == 1 && list_any (is_unready self.old.profile.segments) self.old.lists)
            ≡ false }
        ensures { self.new ≡ synch_put self.old mode }
    {
        synch_all(&mut self.lists, mode);
    }
}

/// The state of a list that is there, to be changed in place.
//
// Out of the whole vector: with a slice of it each caller would have to show that its length stays.
fn state_mut(lists: &mut Vec<ListState>, list: u16) -> &mut ListState
    requires { list < length lists.old.items }
    ensures* writes_back { sem 𝓛 (LendsList lists.entry list result) }
    ensures value { result.now ≡ slice_index_or lists.old.items list result.now }
{
    &mut lists[list as usize]
}

/// Stops or starts the lists of a table as START_STOP_SYNCH does.
fn synch_all(lists: &mut [ListState], mode: u8)
    ensures { lists.new ≡ map (synched mode) lists.old }
{
    for state in lists.iter_mut() {
        state.synch(mode);
    }
}

/// The place of the next entry of an ODT with so many entries, if there is one.
fn next_place(list: u16, odt: u8, entry: u8, entries: usize) -> Option<(u16, u8, u8)>
    requires { entries ≤ MAX_ENTRIES }
    ensures { result ≡ (if nat_lt (entry + 1) entries then Some (list, odt, entry + 1) else None) }
{
    if entry as usize + 1 < entries {
        Some((list, odt, entry + 1))
    } else {
        None
    }
}
