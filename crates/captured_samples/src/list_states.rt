//! The DAQ lists of a slave whose samples are read.
ghost use Rattle.std.specs.Prelude.{◌≡◌, ◌==◌, ◌∷◌, [], List, IfOk, IsSome, OnOk, filter, is_some};
ghost use Rattle.std.specs.Prelude.{map, position, false};
ghost use Rattle.std.specs.List.{list_any};
ghost use Rattle.captured_session.specs.Lists.{list_at};
ghost use Rattle.captured_samples.specs.Inner.{broken_state, marked_state};
ghost use Rattle.captured_samples.specs.Places.{odt_in};
ghost use Rattle.captured_samples.specs.Slaves.{Tells, state_of};
ghost use Rattle.captured_samples.specs.Standing.{ListIn, Start, alike_some, and_packet, give};
ghost use Rattle.captured_samples.specs.Standing.{given_to, handed, handed_of, hands, shown_in};
ghost use Rattle.captured_samples.specs.Standing.{stands};

use crate::list_samples::ListSamples;
use crate::list_state::ListState;
use crate::mark::Mark;
use crate::places::odt_in;
use crate::sample_sink::SampleSink;
use crate::taken::Taken;
use captured_session::{CapturedList, Fact, SetUp, list_in};
use std::alloc::{AllocError, Global};
use std::marker::Model;

/// The DAQ lists of a slave whose samples are read, and how many set-ups of lists were met.
#[derive(Drop)]
pub struct ListStates {
    alloc: Global,
    lists: Vec<ListState>,
    begun: usize,
}

impl Model for ListStates {
    ghost use Rattle.captured_samples.specs.Slaves.{StatesOf};

    ghost Value = { StatesOf };

    ghost view = { λ a. record { lists = a.lists.items; begun = a.begun } };
}

impl ListStates {
    ghost use Rattle.std.specs.Prelude.{◌≡◌, ◌∷◌, OnOk, [], Some};
    ghost use Rattle.captured_samples.specs.Slaves.{Tells, states_of};
    ghost use Rattle.captured_samples.specs.Standing.{ListsIn, Start, begins_anew, broken};
    ghost use Rattle.captured_samples.specs.Standing.{for_each};
    ghost use Rattle.captured_samples.specs.Standing.{give, hands, marked, read_anew, still};
    ghost use Rattle.captured_samples.specs.Standing.{told_fact};
    ghost use Rattle.captured_samples.specs.Standing.{began, told_facts, told_list, with_fact};
    ghost use Rattle.captured_samples.specs.Standing.{with_facts, with_found, with_list};

    /// None.
    pub fn new(alloc: Global) -> ListStates
        ensures { result ≡ states_of record { lists = []; begun = 0 } }
    {
        ListStates {
            alloc,
            lists: Vec::new(alloc),
            begun: 0,
        }
    }

    /// Reads the lists of a set-up: those that still stand go on, and the others begin.
    pub fn read<S: SampleSink>(&mut self, set_up: &SetUp, sink: &mut S) -> Result<(), AllocError>
        ensures lists { (start : Start) (ls : ListsIn) → self.old ≡ states_of ls
            → OnOk result (self.new ≡ states_of (read_anew start set_up.now ls)) }
        ensures told { (start : Start) (ls : ListsIn) → self.old ≡ states_of ls
            → OnOk result (Tells (S.told sink.old) (S.told sink.new)
            (begins_anew start set_up.now ls)) }
    {
        self.keep(set_up)?;
        self.add_all(set_up, sink)
    }

    /// Frames are missing: each list's next sample is marked, and none goes on from before.
    pub fn mark_all(&mut self)
        ensures { (ls : ListsIn) → self.old ≡ states_of ls
            → self.new ≡ states_of (for_each marked ls) }
    {
        mark_all(&mut self.lists);
    }

    /// The slave counts anew: no sample goes on from before.
    pub fn break_all(&mut self)
        ensures { (ls : ListsIn) → self.old ≡ states_of ls
            → self.new ≡ states_of (for_each broken ls) }
    {
        break_all(&mut self.lists);
    }

    /// Takes a packet of a sample by the first list that it is of, and hands a whole sample over.
    pub fn take<S: SampleSink>(&mut self, packet: &[u8], sink: &mut S) -> Result<Taken, AllocError>
        ensures lists { (ls : ListsIn) → self.old ≡ states_of ls
            → OnOk result (self.new ≡ states_of record ls { lists = give packet.now ls.lists }) }
        ensures told { (ls : ListsIn) → self.old ≡ states_of ls
            → OnOk result (Tells (S.told sink.old) (S.told sink.new)
            (hands packet.now ls.lists)) }
    {
        take_in(&mut self.lists, packet, sink)
    }

    /// Lets go of the lists that don't stand any more.
    fn keep(&mut self, set_up: &SetUp) -> Result<(), AllocError>
        ensures { (start : Start) (ls : ListsIn) → self.old ≡ states_of ls
            → OnOk result (self.new ≡ states_of (still start set_up.now ls)) }
    {
        let before = std::mem::replace(&mut self.lists, Vec::new(self.alloc));
        self.lists = kept(self.alloc, set_up, before)?;
        Ok(())
    }

    /// Begins the lists that aren't there yet.
    fn add_all<S: SampleSink>(&mut self, set_up: &SetUp, sink: &mut S) -> Result<(), AllocError>
        ensures lists { (ls : ListsIn) → self.old ≡ states_of ls
            → OnOk result (self.new ≡ states_of (with_facts set_up.now set_up.now.facts ls)) }
        ensures told { (ls : ListsIn) → self.old ≡ states_of ls
            → OnOk result (Tells (S.told sink.old) (S.told sink.new)
            (told_facts set_up.now set_up.now.facts ls)) }
    {
        for fact in set_up.facts() {
            self.add_by(set_up, *fact, sink)?;
        }
        Ok(())
    }

    /// Begins the list that a fact says to have ODTs.
    fn add_by<S: SampleSink>(
        &mut self,
        set_up: &SetUp,
        fact: Fact,
        sink: &mut S,
    ) -> Result<(), AllocError>
        ensures lists { (ls : ListsIn) → self.old ≡ states_of ls
            → OnOk result (self.new ≡ states_of (with_fact set_up.now fact ls)) }
        ensures told { (ls : ListsIn) → self.old ≡ states_of ls
            → OnOk result (Tells (S.told sink.old) (S.told sink.new)
            (told_fact set_up.now fact ls)) }
    {
        match fact {
            Fact::Odts { list, .. } => self.add(set_up, list, sink),
            _ => Ok(()),
        }
    }

    /// Begins the list of a number, if it can be read and isn't there yet.
    fn add<S: SampleSink>(
        &mut self,
        set_up: &SetUp,
        list: u16,
        sink: &mut S,
    ) -> Result<(), AllocError>
        ensures lists { (ls : ListsIn) → self.old ≡ states_of ls
            → OnOk result (self.new ≡ states_of (with_list set_up.now list ls)) }
        ensures told { (ls : ListsIn) → self.old ≡ states_of ls
            → OnOk result (Tells (S.told sink.old) (S.told sink.new)
            (told_list set_up.now list ls)) }
    {
        if has_list(&self.lists, list) {
            return Ok(());
        }
        match list_in(self.alloc, set_up, list)? {
            Some(found) => self.begin(found, sink),
            None => Ok(()),
        }
    }

    /// Begins a list.
    fn begin<S: SampleSink>(&mut self, found: CapturedList, sink: &mut S) -> Result<(), AllocError>
        ensures lists { (ls : ListsIn) → self.old ≡ states_of ls
            → OnOk result (self.new ≡ states_of (with_found ls (Some found))) }
        ensures told { OnOk result (Tells (S.told sink.old) (S.told sink.new)
            (began self.old.begun found ∷ [])) }
    {
        let number = self.begun;
        sink.begin(number, &found)?;
        self.lists.push(ListState {
            number,
            samples: ListSamples::new(self.alloc, found),
            gap: false,
        })?;
        self.begun = number.saturating_add(1);
        Ok(())
    }
}

/// Of some lists those that still stand in a set-up.
fn kept(alloc: Global, set_up: &SetUp, lists: Vec<ListState>) -> Result<Vec<ListState>, AllocError>
    ensures { (start : Start) (xs : List ListIn) → lists.items ≡ map state_of xs
        → IfOk result (λ kept. kept.items ≡ map state_of (filter (stands start set_up.now) xs)) }
{
    let mut kept = Vec::new(alloc);
    for list in lists {
        if stands(alloc, set_up, &list)? {
            kept.push(list)?;
        }
    }
    Ok(kept)
}

/// Whether a list still stands in a set-up.
fn stands(alloc: Global, set_up: &SetUp, list: &ListState) -> Result<bool, AllocError>
    ensures { (start : Start) → IfOk result (λ it. it
        ≡ alike_some start list.now.samples.list (list_at set_up.now list.now.samples.list.list)) }
{
    let list = list.samples.list();
    match list_in(alloc, set_up, list.list())? {
        Some(found) => Ok(list.is_same(&found)),
        None => Ok(false),
    }
}

/// Whether a list of this number is there.
fn has_list(lists: &[ListState], number: u16) -> bool
    ensures { result ≡ list_any (λ s. s.samples.list.list == number) lists.now }
{
    lists
        .iter()
        .any(|list| list.samples.list().list() == number)
}

/// Frames are missing: each list's next sample is marked, and none goes on from before.
fn mark_all(lists: &mut [ListState])
    ensures { lists.new ≡ map marked_state lists.old }
{
    for at in 0..lists.len() {
        mark(&mut lists[at]);
    }
}

/// The next sample of a list is marked, and none goes on from before.
fn mark(list: &mut ListState)
    ensures { list.new ≡ marked_state list.old }
{
    list.samples.break_off();
    list.gap = true;
}

/// No sample goes on from before.
fn break_all(lists: &mut [ListState])
    ensures { lists.new ≡ map broken_state lists.old }
{
    for i in 0..lists.len() {
        break_off(&mut lists[i]);
    }
}

/// No sample of a list goes on from before.
fn break_off(list: &mut ListState)
    ensures { list.new ≡ broken_state list.old }
{
    list.samples.break_off();
}

/// Takes a packet of a sample by the first list that it is of, and hands a whole sample over.
fn take_in<S: SampleSink>(
    lists: &mut [ListState],
    packet: &[u8],
    sink: &mut S,
) -> Result<Taken, AllocError>
    ensures lists { (xs : List ListIn) → lists.old ≡ map state_of xs
        → OnOk result (lists.new ≡ map state_of (give packet.now xs)) }
    ensures told { (xs : List ListIn) → lists.old ≡ map state_of xs
        → OnOk result (Tells (S.told sink.old) (S.told sink.new) (hands packet.now xs)) }
{
    match owner_of(lists, packet) {
        Some(at) => take_at(&mut lists[at], packet, sink),
        None => Ok(Taken::Other),
    }
}

/// The place of the first list that a packet is of.
fn owner_of(lists: &[ListState], packet: &[u8]) -> Option<usize>
    ensures { result ≡ position (λ s. is_some (odt_in s.samples.list packet.now)) lists.now }
{
    lists
        .iter()
        .position(|list| odt_in(list.samples.list(), packet).is_some())
}

/// Takes a packet of a list, and hands the sample over that is whole with it.
fn take_at<S: SampleSink>(
    list: &mut ListState,
    packet: &[u8],
    sink: &mut S,
) -> Result<Taken, AllocError>
    requires { IsSome (odt_in list.old.samples.list packet.now) }
    ensures list { (x : ListIn) → list.old ≡ state_of x
        → OnOk result (list.new ≡ state_of (given_to packet.now x)) }
    ensures told { (x : ListIn) → list.old ≡ state_of x
        → OnOk result (Tells (S.told sink.old) (S.told sink.new)
        (handed_of x (shown_in (and_packet packet.now x)))) }
{
    let taken = list.samples.take(packet)?;
    if taken == Taken::Whole {
        hand_over(list, sink);
    }
    Ok(taken)
}

/// Hands the whole sample of a list over.
fn hand_over<S: SampleSink>(list: &mut ListState, sink: &mut S)
    ensures list { list.new ≡ record list.old { gap = false } }
    ensures told { Tells (S.told sink.old) (S.told sink.new)
        (handed list.old.number list.old.samples
        record { overload = list.old.samples.overload; gap = list.old.gap } ∷ []) }
{
    let mark = Mark {
        overload: list.samples.overload(),
        gap: list.gap,
    };
    list.gap = false;
    sink.hand(list.number, &list.samples, mark);
}
