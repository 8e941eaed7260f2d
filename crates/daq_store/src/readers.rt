//! What the store shows.

ghost use Rattle.std.specs.Prelude.{◌≡◌, ◌<◌, ◌≤◌, ◌↔◌, ◌&&◌, List, true, IsTrue, IsSome};
ghost use Rattle.std.specs.Prelude.{IfSome, is_some, length, option_copied, slice_get};
ghost use Rattle.xcp_base.specs.Forms.{FitsFirstPid, most_entry, stamp_bytes};
ghost use Rattle.segments.specs.Image.{image_len};
ghost use Rattle.segments.specs.Segment.{AreWithin};
ghost use Rattle.daq_store.specs.Shape.{list_count, is_list};
ghost use Rattle.daq_store.specs.Pointer.{pointer};
ghost use Rattle.daq_store.specs.Running.{any_list, is_active, is_chosen, is_running};
ghost use Rattle.daq_store.specs.Configuration.{channel_of, configuration, entry_of, is_ready};
ghost use Rattle.daq_store.specs.Configuration.{list_is_ready, odt_entries};
ghost use Rattle.daq_store.specs.Limited.{is_by_value};
ghost use Rattle.daq_store.specs.Inner.Effects.{shows_entry};

use crate::command::Command;
use crate::entry::Entry;
use crate::list_conf::ListConf;
use crate::list_state::ListState;
use crate::store::Store;
use segments::{Segments, image_len};
use xcp_base::IdKind;
use xcp_base::limits::{MAX_CHANNELS, MAX_DTO, MAX_ENTRIES, MAX_LISTS, MAX_ODTS};

impl Store {
    ghost use Rattle.daq_store.specs.Standing.{StoreStandsAfter, conf_of, first_pid_of};
    ghost use Rattle.daq_store.specs.Standing.{first_pid_after, RunsReady};
    ghost use Rattle.daq_store.specs.Standing.{shows_running, shows_selected};

    /// The number of event channels.
    pub fn channels(&self) -> u16
        ensures value { result ≡ self.now.profile.channels }
        ensures limits { (1 ≤ result) × (result ≤ MAX_CHANNELS) }
    {
        self.channels
    }

    /// The segments in which entries lie.
    pub fn segments(&self) -> &Segments
        ensures value { result.now ≡ self.now.profile.segments }
        ensures within { AreWithin self.now.profile.segments }
    {
        &self.segments
    }

    /// The length of an image of its segments, in bytes.
    pub fn image_len(&self) -> usize
        ensures { result ≡ image_len self.now.profile.segments }
    {
        image_len(self.segments.as_slice())
    }

    /// The identification field of all packets.
    pub fn id(&self) -> IdKind
        ensures { result ≡ self.now.profile.form.id }
    {
        self.form.id
    }

    /// The bytes of each timestamp: 1, 2 or 4.
    pub fn stamp_size(&self) -> u8
        ensures { result ≡ stamp_bytes self.now.profile.form.stamp }
    {
        self.form.stamp.bytes()
    }

    /// Whether the samples of each list find room in a value of fixed size, as in a run: no list
    /// has more than `MAX_ODTS` ODTs, and no packet more than `MAX_DTO` bytes.
    pub fn is_by_value(&self) -> bool
        ensures { result ≡ is_by_value self.now.profile }
    {
        self.most_odts as usize <= MAX_ODTS && self.form.max_dto as usize <= MAX_DTO
    }

    /// The most bytes of an entry.
    pub fn most_entry(&self) -> u8
        ensures { result ≡ most_entry self.now.profile.form }
    {
        self.form.most_entry()
    }

    /// The number of DAQ lists.
    pub fn lists(&self) -> u16
        ensures value { result ≡ length self.now.lists }
        ensures limit { result ≤ MAX_LISTS }
        ensures after { (calls : List Command) → StoreStandsAfter self.now calls
            → result ≡ list_count calls }
    {
        self.lists.len() as u16
    }

    /// FIRST_PID of a DAQ list, if there is one: with an absolute ODT number the number of the ODTs
    /// of the lists before it, with a relative one 0.
    pub fn first_pid(&self, list: u16) -> Option<u8>
        ensures there { IsSome result ↔ (list < length self.now.lists) }
        ensures value { IfSome result (λ pid. pid ≡ first_pid_of self.now list) }
        ensures room { IfSome result
            (FitsFirstPid self.now.profile.form.id (length (conf_of self.now list).odts)) }
        ensures after { (calls : List Command) → StoreStandsAfter self.now calls
            → result ≡ first_pid_after self.now.profile.form calls list }
    {
        if !self.is_list(list) {
            return None;
        }
        Some(self.first_pid_at(list))
    }

    /// Whether a DAQ list runs; not where there is no such list.
    pub fn running(&self, list: u16) -> bool
        ensures value { result ≡ shows_running self.now list }
        ensures ready { IsTrue result
            → is_ready self.now.profile.segments (conf_of self.now list) ≡ true }
        ensures after { (calls : List Command) → StoreStandsAfter self.now calls
            → result ≡ is_active calls list }
    {
        self.state(list).is_some_and(|list| list.running)
    }

    /// Whether a DAQ list is selected; not where there is no such list.
    pub fn selected(&self, list: u16) -> bool
        ensures value { result ≡ shows_selected self.now list }
        ensures after { (calls : List Command) → StoreStandsAfter self.now calls
            → result ≡ is_chosen calls list }
    {
        self.state(list).is_some_and(|list| list.selected)
    }

    /// The DAQ pointer, if it is defined: list, ODT and entry.
    pub fn pointer(&self) -> Option<(u16, u8, u8)>
        ensures value { result ≡ self.now.pointer }
        ensures after { (calls : List Command) → StoreStandsAfter self.now calls
            → result ≡ pointer calls }
    {
        self.pointer
    }

    /// Whether some DAQ list runs.
    pub fn any_running(&self) -> bool
        ensures { (calls : List Command) → StoreStandsAfter self.now calls
            → result ≡ any_list calls (is_running calls) }
    {
        self.some_runs()
    }

    /// What is set of a DAQ list that is there, ready or not.
    pub fn conf(&self, list: u16) -> Option<&ListConf>
        ensures there { IsSome result ↔ (list < length self.now.lists) }
        ensures value { IfSome result (λ conf. conf.now ≡ conf_of self.now list) }
        ensures there_after { (calls : List Command) → StoreStandsAfter self.now calls
            → is_some result ≡ is_list calls list }
        ensures value_after { (calls : List Command) → StoreStandsAfter self.now calls
            → IfSome result
            (λ conf. conf.now ≡ configuration self.now.profile.form calls list) }
    {
        let list = self.state(list)?;
        Some(&list.conf)
    }

    /// An entry that is there, if it is written.
    pub(crate) fn entry_at(&self, list: u16, odt: u8, entry: u8) -> Option<Entry>
        requires { shows_entry self.now list odt entry ≡ true }
        ensures { result ≡ entry_of (conf_of self.now list) odt entry }
    {
        self.state(list)?.conf.written(odt as usize, entry as usize)
    }

    /// What is set of a DAQ list that is there and ready.
    pub fn plan(&self, list: u16) -> Option<&ListConf>
        ensures ready { IsSome result ↔ ((list < length self.now.lists)
            × (is_ready self.now.profile.segments (conf_of self.now list) ≡ true)) }
        ensures value { IfSome result (λ conf. conf.now ≡ conf_of self.now list) }
        ensures channel { IfSome result
            (λ conf. channel_of conf.now.mode < self.now.profile.channels) }
        ensures few { IfSome result
            (λ conf. length conf.now.odts ≤ self.now.profile.most_odts) }
        ensures ready_after { (calls : List Command) → StoreStandsAfter self.now calls
            → IsSome result
            ↔ ((is_list calls list && list_is_ready self.now.profile calls list) ≡ true) }
        ensures value_after { (calls : List Command) → StoreStandsAfter self.now calls
            → IfSome result
            (λ conf. conf.now ≡ configuration self.now.profile.form calls list) }
    {
        let list = self.state(list)?;
        if list.conf.ready(&self.segments) {
            Some(&list.conf)
        } else {
            None
        }
    }

    /// The state of a DAQ list, if there is one.
    pub(crate) fn state(&self, list: u16) -> Option<&ListState>
        ensures there { IsSome result ↔ (list < length self.now.lists) }
        ensures value { option_copied result ≡ slice_get self.now.lists list }
        ensures conf { IfSome result (λ state. state.now.conf ≡ conf_of self.now list) }
        ensures channel { IfSome result
            (λ state. channel_of state.now.conf.mode < self.now.profile.channels) }
        ensures ready { IfSome result
            (λ state. RunsReady self.now.profile.segments state.now) }
    {
        self.lists.get(list as usize)
    }

    /// The number of entries of an ODT; 0 if there is no such ODT.
    pub(crate) fn entries(&self, list: u16, odt: u8) -> usize
        ensures count { result ≡ length (odt_entries (conf_of self.now list) odt) }
        ensures limit { result ≤ MAX_ENTRIES }
    {
        match self.state(list) {
            Some(list) => list.conf.entries(odt as usize),
            None => 0,
        }
    }
}
