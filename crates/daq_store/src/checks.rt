//! The checks of each call, in their order: active list, sequence, numbers and ranges, mode,
//! configuration, limits of allocation.

ghost use Rattle.std.specs.Prelude.{◌≡◌, ◌+◌, ◌*◌, ◌<◌, ◌≤◌, ◌&&◌, ◌==◌, true, false};
ghost use Rattle.std.specs.Prelude.{IfErr, IfOk, OnOk, Some, is_none, length};
ghost use Rattle.std.specs.List.{list_any};
ghost use Rattle.xcp_base.specs.Forms.{FitsFirstPid, most_odts};
ghost use Rattle.segments.specs.Places.{segment_of};
ghost use Rattle.daq_store.specs.Answer.{is_bad_entry};
ghost use Rattle.daq_store.specs.Inner.Effects.{some_runs, shows_list, shows_odt, shows_entry};
ghost use Rattle.daq_store.specs.Inner.Effects.{other_odts, shows_too_many, shows_unready};
ghost use Rattle.daq_store.specs.Inner.Effects.{is_unready, is_bad_target, is_bad_mode};
ghost use Rattle.daq_store.specs.Inner.Effects.{allocation_fault, Passes, Fails};

use crate::command::Command;
use crate::list_state::{SELECT, START};
use crate::mode::TIMESTAMP;
use crate::store::Store;
use segments::Segments;
use xcp_base::ErrCode;
use xcp_base::limits::{MAX_CHANNELS, MAX_ENTRIES, MAX_ENTRY_SIZE, MAX_LISTS, MAX_ODTS_IN_ALL};

impl Store {
    ghost use Rattle.daq_store.specs.Standing.{conf_of, first_pid_of, odts_shown, shows_running};

    /// The checks of ALLOC_DAQ.
    pub(crate) fn check_alloc_daq(&self, count: u16) -> Result<(), ErrCode>
        ensures passes { OnOk result (Passes self.now (Command.AllocDaq count)) }
        ensures fails { IfErr result (Fails self.now (Command.AllocDaq count)) }
        ensures limit { OnOk result (count ≤ MAX_LISTS) }
    {
        self.check_allocation(self.phase.forbids_lists())?;
        if count > MAX_LISTS {
            return Err(ErrCode::MemoryOverflow);
        }
        Ok(())
    }

    /// The checks of ALLOC_ODT.
    pub(crate) fn check_alloc_odt(&self, list: u16, count: u8) -> Result<(), ErrCode>
        ensures passes { OnOk result (Passes self.now (Command.AllocOdt list count)) }
        ensures fails { IfErr result (Fails self.now (Command.AllocOdt list count)) }
        ensures stopped { OnOk result (some_runs self.now ≡ false) }
        ensures there { OnOk result (list < length self.now.lists) }
        ensures limit { OnOk result (count ≤ MAX_ODTS_IN_ALL) }
        ensures total { OnOk result
            (other_odts self.now list + count ≤ most_odts self.now.profile.form.id) }
    {
        self.check_allocation(self.phase.forbids_odts())?;
        if !self.is_list(list) {
            return Err(ErrCode::OutOfRange);
        }
        if self.has_too_many(list, count) {
            return Err(ErrCode::MemoryOverflow);
        }
        Ok(())
    }

    /// The checks of ALLOC_ODT_ENTRY.
    pub(crate) fn check_alloc_odt_entry(&self, list: u16, odt: u8, count: u8) -> Result<(), ErrCode>
        ensures passes { OnOk result (Passes self.now (Command.AllocOdtEntry list odt count)) }
        ensures fails { IfErr result (Fails self.now (Command.AllocOdtEntry list odt count)) }
        ensures stopped { OnOk result (some_runs self.now ≡ false) }
        ensures there { OnOk result (shows_odt self.now list odt ≡ true) }
        ensures limit { OnOk result (count ≤ MAX_ENTRIES) }
    {
        self.check_allocation(self.phase.forbids_entries())?;
        if !self.has_odt(list, odt) {
            return Err(ErrCode::OutOfRange);
        }
        if count > self.most_entries {
            return Err(ErrCode::MemoryOverflow);
        }
        Ok(())
    }

    /// The first two checks of each allocation: no list runs, and the phase admits it.
    fn check_allocation(&self, forbidden: bool) -> Result<(), ErrCode>
        ensures passes { OnOk result (allocation_fault self.now forbidden ≡ None) }
        ensures fails { IfErr result (λ code. allocation_fault self.now forbidden ≡ Some code) }
        ensures stopped { OnOk result (some_runs self.now ≡ false) }
    {
        // A list that runs is named before the phase is.
        if self.some_runs() {
            return Err(ErrCode::DaqActive);
        }
        if forbidden {
            return Err(ErrCode::Sequence);
        }
        Ok(())
    }

    /// The checks of SET_DAQ_PTR.
    pub(crate) fn check_set_ptr(&self, list: u16, odt: u8, entry: u8) -> Result<(), ErrCode>
        ensures passes { OnOk result (Passes self.now (Command.SetDaqPtr list odt entry)) }
        ensures fails { IfErr result (Fails self.now (Command.SetDaqPtr list odt entry)) }
        ensures there { OnOk result (shows_entry self.now list odt entry ≡ true) }
    {
        // The entries of a list that runs stay, so no pointer is set to one.
        if self.running(list) {
            return Err(ErrCode::DaqActive);
        }
        if !self.has_entry(list, odt, entry) {
            return Err(ErrCode::OutOfRange);
        }
        Ok(())
    }

    /// The checks of WRITE_DAQ; where they pass, the place of the entry.
    pub(crate) fn check_write(
        &self,
        bit: u8,
        size: u8,
        ext: u8,
        addr: u32,
    ) -> Result<(u16, u8, u8), ErrCode>
        ensures passes { OnOk result (Passes self.now (Command.WriteDaq bit size ext addr)) }
        ensures fails { IfErr result (Fails self.now (Command.WriteDaq bit size ext addr)) }
        ensures place { IfOk result (λ place. self.now.pointer ≡ Some place) }
        ensures there { IfOk result
            (λ place. shows_entry self.now place.0 place.1 place.2 ≡ true) }
        ensures stopped { IfOk result (λ place. shows_running self.now place.0 ≡ false) }
        ensures size { OnOk result ((0 < size) × (size ≤ MAX_ENTRY_SIZE)) }
    {
        // Only a pointer that is defined has a list that may run.
        let Some((list, odt, entry)) = self.pointer else {
            return Err(ErrCode::Sequence);
        };
        if self.running(list) {
            return Err(ErrCode::DaqActive);
        }
        if self.is_bad_entry(bit, size, ext, addr) {
            return Err(ErrCode::OutOfRange);
        }
        Ok((list, odt, entry))
    }

    /// The checks of SET_DAQ_LIST_MODE.
    pub(crate) fn check_set_mode(
        &self,
        mode: u8,
        list: u16,
        channel: u16,
        prescaler: u8,
        priority: u8,
    ) -> Result<(), ErrCode>
        ensures passes { OnOk result (Passes self.now
            (Command.SetDaqListMode mode list channel prescaler priority)) }
        ensures fails { IfErr result (Fails self.now
            (Command.SetDaqListMode mode list channel prescaler priority)) }
        ensures stopped { OnOk result (shows_running self.now list ≡ false) }
        ensures there { OnOk result (list < length self.now.lists) }
        ensures channel { OnOk result (channel < MAX_CHANNELS) }
        ensures prescaler { OnOk result (0 < prescaler) }
    {
        // The mode of a list that runs stays.
        if self.running(list) {
            return Err(ErrCode::DaqActive);
        }
        if self.is_bad_target(list, channel, prescaler) {
            return Err(ErrCode::OutOfRange);
        }
        if is_bad_mode(mode) {
            return Err(ErrCode::ModeNotValid);
        }
        Ok(())
    }

    /// The checks of START_STOP_DAQ_LIST.
    pub(crate) fn check_start_stop(&self, mode: u8, list: u16) -> Result<(), ErrCode>
        ensures passes { OnOk result (Passes self.now (Command.StartStopDaqList mode list)) }
        ensures fails { IfErr result (Fails self.now (Command.StartStopDaqList mode list)) }
        ensures there { OnOk result (list < length self.now.lists) }
        ensures ready { OnOk result ((mode == 1 && shows_unready self.now list) ≡ false) }
    {
        // No mode makes a list that isn't there.
        if !self.is_list(list) {
            return Err(ErrCode::OutOfRange);
        }
        if mode > SELECT {
            return Err(ErrCode::ModeNotValid);
        }
        if self.starts_unready(mode, list) {
            return Err(ErrCode::DaqConfig);
        }
        Ok(())
    }

    /// The checks of START_STOP_SYNCH.
    pub(crate) fn check_synch(&self, mode: u8) -> Result<(), ErrCode>
        ensures passes { OnOk result (Passes self.now (Command.StartStopSynch mode)) }
        ensures fails { IfErr result (Fails self.now (Command.StartStopSynch mode)) }
        ensures ready { OnOk result
            ((mode == 1 && list_any (is_unready self.now.profile.segments) self.now.lists)
            ≡ false) }
    {
        if mode > SELECT {
            return Err(ErrCode::ModeNotValid);
        }
        if mode == START && self.selects_unready() {
            return Err(ErrCode::DaqConfig);
        }
        Ok(())
    }

    /// The check of CLEAR_DAQ_LIST.
    pub(crate) fn check_clear(&self, list: u16) -> Result<(), ErrCode>
        ensures passes { OnOk result (Passes self.now (Command.ClearDaqList list)) }
        ensures fails { IfErr result (Fails self.now (Command.ClearDaqList list)) }
        ensures there { OnOk result (list < length self.now.lists) }
    {
        if !self.is_list(list) {
            return Err(ErrCode::OutOfRange);
        }
        Ok(())
    }

    /// The check of READ_DAQ; where it passes, the place of the entry.
    pub(crate) fn check_read(&self) -> Result<(u16, u8, u8), ErrCode>
        ensures passes { OnOk result (Passes self.now Command.ReadDaq) }
        ensures fails { IfErr result (Fails self.now Command.ReadDaq) }
        ensures place { IfOk result (λ place. self.now.pointer ≡ Some place) }
        ensures there { IfOk result
            (λ place. shows_entry self.now place.0 place.1 place.2 ≡ true) }
    {
        let Some(place) = self.pointer else {
            return Err(ErrCode::Sequence);
        };
        Ok(place)
    }

    /// Whether some list runs.
    pub(crate) fn some_runs(&self) -> bool
        ensures { result ≡ some_runs self.now }
    {
        self.lists.iter().any(|list| list.running)
    }

    /// Whether there is such a list.
    pub(crate) fn is_list(&self, list: u16) -> bool
        ensures { result ≡ shows_list self.now list }
    {
        self.state(list).is_some()
    }

    /// Whether there is such an ODT.
    fn has_odt(&self, list: u16, odt: u8) -> bool
        ensures { result ≡ shows_odt self.now list odt }
    {
        self.state(list)
            .is_some_and(|list| (odt as usize) < list.conf.odts())
    }

    /// Whether there is such an entry.
    fn has_entry(&self, list: u16, odt: u8, entry: u8) -> bool
        ensures { result ≡ shows_entry self.now list odt entry }
    {
        (entry as usize) < self.entries(list, odt)
    }

    /// The number of the ODTs of the lists before a list.
    pub(crate) fn odts_before(&self, list: usize) -> usize
        requires { list ≤ length self.now.lists }
        ensures value { result ≡ odts_shown self.now list }
        ensures limit { result ≤ MAX_LISTS * MAX_ODTS_IN_ALL }
    {
        let mut odts = 0;
        for state in &self.lists[..list] {
            odts += state.conf.odts();
        }
        odts
    }

    /// FIRST_PID of a list that is there.
    pub(crate) fn first_pid_at(&self, list: u16) -> u8
        requires { list ≤ length self.now.lists }
        ensures value { result ≡ first_pid_of self.now list }
        ensures room { list < length self.now.lists
            → FitsFirstPid self.now.profile.form.id (length (conf_of self.now list).odts) result }
    {
        self.form.id.first_pid(self.odts_before(list as usize)) as u8
    }

    /// The number of the ODTs of all lists but one.
    fn other_odts(&self, list: u16) -> usize
        ensures value { result ≡ other_odts self.now list }
        ensures limit { result ≤ MAX_LISTS * MAX_ODTS_IN_ALL }
    {
        let odts = self.odts_before(self.lists.len());
        match self.state(list) {
            Some(list) => odts - list.conf.odts(),
            None => odts,
        }
    }

    /// Whether so many ODTs of a list, in place of those that it has, are over a limit.
    fn has_too_many(&self, list: u16, count: u8) -> bool
        ensures { result ≡ shows_too_many self.now list count }
    {
        let most = self.most_odts as usize;
        let count = count as usize;
        count > most || self.other_odts(list) + count > self.form.id.most_odts()
    }

    /// Whether there is no such list or event channel, or the prescaler is 0.
    fn is_bad_target(&self, list: u16, channel: u16, prescaler: u8) -> bool
        ensures value { result ≡ is_bad_target self.now list channel prescaler }
        ensures channel { result ≡ false → channel < MAX_CHANNELS }
    {
        !self.is_list(list) || channel >= self.channels || prescaler == 0
    }

    /// Whether an entry is a bit, has no byte or too many, or lies in no segment.
    fn is_bad_entry(&self, bit: u8, size: u8, ext: u8, addr: u32) -> bool
        ensures value { result ≡ is_bad_entry self.now.profile bit size ext addr }
        ensures size { result ≡ false → (0 < size) × (size ≤ MAX_ENTRY_SIZE) }
    {
        bit != NO_BIT
            || size == 0
            || size > self.form.most_entry()
            || is_outside(&self.segments, size, ext, addr)
    }

    /// Whether this is the start of a list that isn't ready.
    fn starts_unready(&self, mode: u8, list: u16) -> bool
        ensures { result ≡ (mode == 1 && shows_unready self.now list) }
    {
        mode == START && self.plan(list).is_none()
    }

    /// Whether a selected list isn't ready.
    fn selects_unready(&self) -> bool
        ensures { result ≡ list_any (is_unready self.now.profile.segments) self.now.lists }
    {
        let segments = &self.segments;
        self.lists
            .iter()
            .any(|list| list.selected && !list.conf.ready(segments))
    }
}

/// Whether so many bytes from an address on lie in no segment.
fn is_outside(segments: &Segments, size: u8, ext: u8, addr: u32) -> bool
    ensures { result ≡ is_none (segment_of segments.now ext addr size) }
{
    segments.find(ext, addr as usize, size as usize).is_none()
}

/// The bit offset of WRITE_DAQ that names whole bytes.
const NO_BIT: u8 = 0xFF;

/// Whether a mode byte has another bit than TIMESTAMP.
fn is_bad_mode(mode: u8) -> bool
    ensures { result ≡ is_bad_mode mode }
{
    mode != 0 && mode != TIMESTAMP
}
