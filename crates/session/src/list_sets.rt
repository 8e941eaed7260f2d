//! Sets of DAQ lists, as the store shows them.
ghost use Rattle.std.specs.Prelude.{◌≡◌, ℕ, ◌<◌, ◌&&◌, not, List};
ghost use Rattle.xcp_base.specs.Lists.{has_list};
ghost use Rattle.daq_store.specs.Running.{is_active, is_chosen};
ghost use Rattle.daq_store.specs.Standing.{StoreStandsAfter};
ghost use Rattle.session.specs.Starts.{is_on_after, shows_on};

use daq_store::Store;
use daq_store::command::Command;
use xcp_base::limits::MAX_LISTS;
use xcp_base::{ChannelId, ListId, ListSet};

/// The lists that run.
pub fn running_of(store: &Store) -> ListSet
    ensures { (calls : List Command) → StoreStandsAfter store.now calls
        → (l : ℕ) → l < MAX_LISTS → has_list result l ≡ is_active calls l }
{
    let mut set = ListSet::none();
    for l in 0..MAX_LISTS {
        set = set.with_list_if(ListId::at(l), store.running(l));
    }
    set
}

/// The selected lists that don't run.
pub fn waiting_of(store: &Store) -> ListSet
    ensures { (calls : List Command) → StoreStandsAfter store.now calls
        → (l : ℕ) → l < MAX_LISTS
        → has_list result l ≡ (is_chosen calls l && not (is_active calls l)) }
{
    let mut set = ListSet::none();
    for l in 0..MAX_LISTS {
        set = set.with_list_if(ListId::at(l), waits(store, l));
    }
    set
}

/// Whether a list is selected, and doesn't run.
fn waits(store: &Store, list: u16) -> bool
    ensures { (calls : List Command) → StoreStandsAfter store.now calls
        → result ≡ (is_chosen calls list && not (is_active calls list)) }
{
    let selected = store.selected(list);
    let runs = store.running(list);
    selected && !runs
}

/// The lists that are there, ready, and whose mode names this event channel.
pub fn ready_on(store: &Store, channel: ChannelId) -> ListSet
    ensures shown { (l : ℕ) → l < MAX_LISTS → has_list result l ≡ shows_on store.now channel l }
    ensures after { (calls : List Command) → StoreStandsAfter store.now calls
        → (l : ℕ) → l < MAX_LISTS
        → has_list result l ≡ is_on_after store.now.profile calls channel l }
{
    let mut set = ListSet::none();
    for l in 0..MAX_LISTS {
        set = set.with_list_if(ListId::at(l), is_on(store, channel, l));
    }
    set
}

/// Whether a list is there, ready, and its mode names this event channel.
fn is_on(store: &Store, channel: ChannelId, list: u16) -> bool
    ensures shown { result ≡ shows_on store.now channel list }
    ensures after { (calls : List Command) → StoreStandsAfter store.now calls
        → result ≡ is_on_after store.now.profile calls channel list }
{
    let Some(conf) = store.plan(list) else {
        return false;
    };
    conf.channel() == channel.byte()
}
