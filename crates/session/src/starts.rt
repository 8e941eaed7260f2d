//! Which DAQ lists a packet starts.
ghost use Rattle.std.specs.Prelude.{◌≡◌, ℕ, ◌<◌, ◌&&◌, not, List};
ghost use Rattle.xcp_base.specs.Lists.{has_list};
ghost use Rattle.daq_store.specs.Answer.{selects_unready};
ghost use Rattle.daq_store.specs.Running.{any_list, is_active};
ghost use Rattle.daq_store.specs.Standing.{StoreStandsAfter};
ghost use Rattle.daq_store.specs.Shape.{list_count};
ghost use Rattle.session.specs.Past.{Past};
ghost use Rattle.session.specs.Standing.{SessionStandsAfter};
ghost use Rattle.session.specs.Starts.{call_starts, is_startable, starts};

use crate::list_sets;
use crate::request::{self, Request};
use crate::session::Session;
use daq_store::Store;
use daq_store::command::Command;
use xcp_base::limits::MAX_LISTS;
use xcp_base::{ListId, ListSet};

impl Session {
    /// The set of the DAQ lists that this packet would start if it came now: they don't run before
    /// it, and run after it.
    pub fn starts_of(&self, packet: &[u8]) -> ListSet
        ensures value { (past : Past) → SessionStandsAfter self.now past
            → (l : ℕ) → l < MAX_LISTS
            → has_list result l ≡ starts self.now.profile past packet.now l }
    {
        if !self.connected {
            return ListSet::none();
        }
        let Ok(asked) = request::read(packet, self.profile.max_cto) else {
            return ListSet::none();
        };
        let Request::Lists(command) = asked else {
            return ListSet::none();
        };
        started_by(&self.store, command)
    }
}

/// The lists that a command starts.
fn started_by(store: &Store, command: Command) -> ListSet
    ensures { (calls : List Command) → StoreStandsAfter store.now calls
        → (l : ℕ) → l < MAX_LISTS
        → has_list result l ≡ call_starts store.now.profile calls command l }
{
    match command {
        Command::StartStopDaqList { mode, list } => started_by_list(store, mode, list),
        Command::StartStopSynch { mode } => started_by_synch(store, mode),
        _ => ListSet::none(),
    }
}

/// START_STOP_DAQ_LIST of mode 1: its list, if it is there, ready, and doesn't run.
fn started_by_list(store: &Store, mode: u8, list: u16) -> ListSet
    ensures { (calls : List Command) → StoreStandsAfter store.now calls
        → (l : ℕ) → l < MAX_LISTS
        → has_list result l
        ≡ call_starts store.now.profile calls (Command.StartStopDaqList mode list) l }
{
    if mode != START {
        return ListSet::none();
    }
    if list >= store.lists() {
        return ListSet::none();
    }
    let starts = would_start(store, list);
    ListSet::none().with_list_if(ListId::at(list), starts)
}

/// Whether a list is there, ready, and doesn't run.
fn would_start(store: &Store, list: u16) -> bool
    ensures { (calls : List Command) → StoreStandsAfter store.now calls
        → result ≡ (is_startable store.now.profile calls list && not (is_active calls list)) }
{
    let ready = store.plan(list).is_some();
    let runs = store.running(list);
    ready && !runs
}

/// START_STOP_SYNCH of mode 1: the selected lists that don't run, if each selected list is ready.
fn started_by_synch(store: &Store, mode: u8) -> ListSet
    ensures { (calls : List Command) → StoreStandsAfter store.now calls
        → (l : ℕ) → l < MAX_LISTS
        → has_list result l
        ≡ call_starts store.now.profile calls (Command.StartStopSynch mode) l }
{
    if mode != START {
        return ListSet::none();
    }
    if selects_unready(store) {
        return ListSet::none();
    }
    list_sets::waiting_of(store)
}

/// Whether some list is selected and not ready.
fn selects_unready(store: &Store) -> bool
    ensures { (calls : List Command) → StoreStandsAfter store.now calls
        → result ≡ any_list calls (selects_unready store.now.profile calls) }
{
    for l in 0..store.lists() {
        if is_unready(store, l) {
            return true;
        }
    }
    false
}

/// Whether a list that is there is selected and not ready.
fn is_unready(store: &Store, list: u16) -> bool
    ensures { (calls : List Command) → StoreStandsAfter store.now calls
        → list < list_count calls
        → result ≡ selects_unready store.now.profile calls list }
{
    let selected = store.selected(list);
    let ready = store.plan(list).is_some();
    selected && !ready
}

/// The mode that starts lists.
const START: u8 = 1;
