//! A measurement is opened at all event channels that have lists of it, or at none.
ghost use Rattle.std.specs.Prelude.{◌≡◌, ◌≢◌, ◌<◌, ◌≤◌, IfErr, IsOk, OnErr, OnOk, Some, length};
ghost use Rattle.std.specs.Prelude.{slice_get, true, false};
ghost use Rattle.tasks.specs.Links.{hand_refusal};
ghost use Rattle.slave_channels.specs.Channels.{AnswersOpen, ChannelState, keeps_two};
ghost use Rattle.slave_channels.specs.Calls.{Ends, HasFull, HasSome, HaveRoom, HasRefused};
ghost use Rattle.slave_channels.specs.Calls.{OpenedAndEnded, OpensAt, OpensIfAny};
ghost use Rattle.slave_channels.specs.Each.{IsEach, IsOnlyAt};
ghost use Rattle.slave_channels.specs.Inner.{EndsAt, IsFront};

use crate::Channel;
use crate::channels::Channels;
use crate::ending::end_one;
use daq_store::Store;
use std::alloc::Global;
use tasks::HandFault;
use xcp_base::{ChannelId, ListSet};

/// Opens an event channel's part of a measurement, if it has lists of it.
fn open_one(
    channel: &mut Channel,
    alloc: Global,
    store: &Store,
    c: ChannelId,
    cap: usize,
    set: ListSet,
    number: u64,
) -> Result<(), HandFault>
    ensures answer { set ≢ 0 → AnswersOpen (hand_refusal channel.old.link) result }
    ensures always { set ≡ 0 → IsOk result }
    ensures ok { OnOk result (OpensIfAny store.now number c cap set channel.old channel.new) }
    ensures err { OnErr result (channel.new ≡ channel.old) }
{
    if set.is_empty() {
        return Ok(());
    }
    channel.open(alloc, store, c, cap, number)
}

/// Whether there is room at an event channel for a part of one more measurement, if it has lists of
/// it.
fn can_open_one(channel: &Channel, set: ListSet) -> bool
    ensures yes { result ≡ true → set ≢ 0 → keeps_two channel.now ≡ false }
    ensures some { result ≡ false → HasSome set }
    ensures no { result ≡ false → keeps_two channel.now ≡ true }
{
    if set.is_empty() {
        return true;
    }
    !channel.is_full()
}

/// Ends an event channel's part of a measurement, if it has lists of it.
fn end_if_any(channel: &mut Channel, set: ListSet)
    ensures none { set ≡ 0 → channel.new ≡ channel.old }
    ensures ends { set ≢ 0 → Ends channel.old channel.new }
{
    if !set.is_empty() {
        end_one(channel);
    }
}

impl Channels {
    /// Whether there is room for one more measurement: at each event channel `c` whose set
    /// `lists[c]` of lists is not empty, no more than one part is kept.
    pub fn can_open(&self, lists: &[ListSet]) -> bool
        requires lists { length lists.now ≡ length self.now }
        ensures yes { result ≡ true → HaveRoom lists.now self.now }
        ensures no { result ≡ false → HasFull lists.now self.now }
    {
        for c in 0..self.all.len() {
            if !can_open_one(&self.all[c], lists[c]) {
                return false;
            }
        }
        true
    }

    /// Opens a measurement over a store: its part at each event channel `c` whose set `lists[c]` of
    /// lists is not empty, with a ring of `caps[c]` bytes.
    ///
    /// Refused as `Channel::open` refuses the first of them that can't be opened. Then those before
    /// it have ended again, and the others are as they were.
    pub fn open(
        &mut self,
        alloc: Global,
        store: &Store,
        caps: &[usize],
        lists: &[ListSet],
        number: u64,
    ) -> Result<(), HandFault>
        requires caps { length caps.now ≡ length self.old }
        requires lists { length lists.now ≡ length self.old }
        ensures ok { OnOk result
            (IsEach (OpensAt store.now number caps.now lists.now) self.old self.new) }
        ensures refusal { IfErr result (HasRefused lists.now self.old) }
        ensures err { OnErr result
            (IsEach (OpenedAndEnded store.now number caps.now lists.now) self.old self.new) }
    {
        for c in 0..self.len() {
            if let Err(fault) = self.open_at(alloc, store, c, caps[c], lists[c], number) {
                self.end_below(lists, c);
                return Err(fault);
            }
        }
        Ok(())
    }

    /// Opens the part of a measurement at one event channel, if it has lists of it.
    fn open_at(
        &mut self,
        alloc: Global,
        store: &Store,
        c: usize,
        cap: usize,
        set: ListSet,
        number: u64,
    ) -> Result<(), HandFault>
        requires channel { c < length self.old }
        ensures answer { (x : ChannelState) → slice_get self.old c ≡ Some x → set ≢ 0
            → AnswersOpen (hand_refusal x.link) result }
        ensures always { set ≡ 0 → IsOk result }
        ensures ok { OnOk result
            (IsOnlyAt (OpensIfAny store.now number c cap set) c self.old self.new) }
        ensures err { OnErr result (self.new ≡ self.old) }
    {
        let channel = &mut self.all[c];
        open_one(channel, alloc, store, ChannelId::at(c), cap, set, number)
    }

    /// Ends the measurement at those of the first `n` event channels that have lists of it.
    fn end_below(&mut self, lists: &[ListSet], n: usize)
        requires lists { length lists.now ≡ length self.old }
        requires below { n ≤ length self.old }
        ensures ends { IsFront (EndsAt lists.now) n self.old self.new }
    {
        for c in 0..n {
            end_if_any(&mut self.all[c], lists[c]);
        }
    }
}
