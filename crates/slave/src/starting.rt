//! Lists are started, in a measurement that is opened where none is there.
ghost use Rattle.std.specs.Prelude.{◌≡◌, ◌<◌, IfErr, OnErr, OnOk, length, true, false};
ghost use Rattle.xcp_base.specs.declared.limits.TheConstants.{MAX_CHANNELS};
ghost use Rattle.slave.specs.Hearing.{most_before};
ghost use Rattle.slave.specs.Inner.{AllCame, AreJustOut, AreSets, Busy, HasRoom, Idle};
ghost use Rattle.slave.specs.Inner.{IsPlaceRefusal, IsRefusedAt, IsSetOn, LooksAtAll, OpensAll};
ghost use Rattle.slave.specs.Inner.{OpensInVain};
ghost use Rattle.slave.specs.Inner.{NoneIsTooLong, OpensNone, Prepares};
ghost use Rattle.slave.specs.Inner.{StartsInVain, StartsLists, WantsRoom};
ghost use Rattle.slave.specs.Pages.{page_over};
ghost use Rattle.slave.specs.Plans.{plan_of};
ghost use Rattle.slave_channels.specs.Calls.{HasSome};
ghost use Rattle.slave_outbox.specs.Outboxes.{has_room};

use crate::page::page_over;
use crate::plan::Plan;
use crate::slave::Slave;
use std::alloc::Global;
use tasks::HandFault;
use xcp_base::limits::MAX_CHANNELS;
use xcp_base::{ChannelId, ErrCode, ListSet};

/// What a start is refused with where a measurement can't be opened.
fn code_of(fault: HandFault) -> ErrCode
    ensures { IsPlaceRefusal result }
{
    match fault {
        HandFault::Memory => ErrCode::MemoryOverflow,
        _ => ErrCode::CmdBusy,
    }
}

impl Slave {
    /// Orders the starts of these lists, if they are any, in a measurement that is opened if none
    /// is there.
    pub(crate) fn prepare(&mut self, alloc: Global, lists: ListSet) -> Result<(), ErrCode>
        ensures ok { OnOk result (Prepares most_before self.old self.new lists) }
        ensures err { IfErr result (StartsInVain most_before self.old self.new lists) }
        ensures session_stays { self.new.session ≡ self.old.session }
        ensures room_stays { has_room self.new.outbox ≡ has_room self.old.outbox }
        ensures shown_stays { self.new.outbox.shown ≡ self.old.outbox.shown }
        ensures acts_stay { self.new.acts ≡ self.old.acts }
        ensures next_stays { self.new.next ≡ self.old.next }
    {
        if lists.is_empty() {
            return Ok(());
        }
        if self.is_idle() {
            return self.start_anew(alloc, lists);
        }
        if !self.plan.stands(self.session.store(), lists) {
            return Err(ErrCode::Sequence);
        }
        self.start(lists)
    }

    /// Whether no list runs.
    pub(crate) fn is_idle(&self) -> bool
        ensures idle { result ≡ true → Idle self.now.session }
        ensures busy { result ≡ false → Busy self.now.session }
    {
        self.session.running().is_empty()
    }

    /// Starts these lists in a new measurement, once what came back of those before was taken back.
    fn start_anew(&mut self, alloc: Global, lists: ListSet) -> Result<(), ErrCode>
        requires idle { Idle self.old.session }
        requires some { HasSome lists }
        ensures ok { OnOk result (Prepares most_before self.old self.new lists) }
        ensures err { IfErr result (StartsInVain most_before self.old self.new lists) }
        ensures session_stays { self.new.session ≡ self.old.session }
        ensures room_stays { has_room self.new.outbox ≡ has_room self.old.outbox }
        ensures shown_stays { self.new.outbox.shown ≡ self.old.outbox.shown }
        ensures acts_stay { self.new.acts ≡ self.old.acts }
        ensures next_stays { self.new.next ≡ self.old.next }
    {
        self.collect();
        self.start_new(alloc, lists)
    }

    /// Opens a measurement, if there is room for one more, and for the samples of these lists in
    /// their rings, and orders their starts.
    fn start_new(&mut self, alloc: Global, lists: ListSet) -> Result<(), ErrCode>
        requires came { AllCame self.old }
        requires idle { Idle self.old.session }
        requires some { HasSome lists }
        ensures ok { OnOk result (Prepares 1 self.old self.new lists) }
        ensures err { IfErr result (StartsInVain 1 self.old self.new lists) }
        ensures session_stays { self.new.session ≡ self.old.session }
        ensures room_stays { has_room self.new.outbox ≡ has_room self.old.outbox }
        ensures shown_stays { self.new.outbox.shown ≡ self.old.outbox.shown }
        ensures acts_stay { self.new.acts ≡ self.old.acts }
        ensures next_stays { self.new.next ≡ self.old.next }
    {
        if !self.can_open() {
            return Err(ErrCode::CmdBusy);
        }
        if self.has_too_long(lists) {
            return Err(ErrCode::MemoryOverflow);
        }
        self.open_measurement(alloc)?;
        self.start_opened(lists);
        Ok(())
    }

    /// Whether there is room for one more measurement of all lists that are ready.
    fn can_open(&self) -> bool
        ensures yes { result ≡ true → HasRoom self.now }
        ensures no { result ≡ false → WantsRoom self.now }
    {
        let ready = self.sets_of(ListSet::all());
        self.channels.can_open(&ready[..self.channels.len()])
    }

    /// Opens a measurement of all lists that are ready, with a page for the longest of their
    /// samples.
    fn open_measurement(&mut self, alloc: Global) -> Result<(), ErrCode>
        ensures ok { OnOk result (OpensAll self.old self.new) }
        ensures err { IfErr result (OpensNone self.old self.new) }
    {
        let Ok(plan) = Plan::of(alloc, self.session.store()) else {
            return Err(ErrCode::MemoryOverflow);
        };
        let page = page_over(self.session.store());
        let Ok(()) = self.outbox.set_page(alloc, page) else {
            return Err(ErrCode::MemoryOverflow);
        };
        self.plan = plan;
        if let Err(fault) = self.open_channels(alloc) {
            return Err(code_of(fault));
        }
        Ok(())
    }

    /// Opens the parts of a measurement at all event channels.
    fn open_channels(&mut self, alloc: Global) -> Result<(), HandFault>
        requires plan { self.old.plan ≡ plan_of self.old.session.store }
        requires page { self.old.outbox.page ≡ page_over self.old.session.store }
        ensures ok { OnOk result (OpensAll self.old self.new) }
        ensures err { OnErr result (OpensInVain self.old self.new) }
    {
        let sets = self.sets_of(ListSet::all());
        let lists = &sets[..self.channels.len()];
        let number = self.number;
        self.number = number.wrapping_add(1);
        self.channels
            .open(alloc, self.session.store(), &self.caps, lists, number)
    }

    /// Orders the starts of these lists, if all find places, and their samples room in their rings.
    fn start(&mut self, lists: ListSet) -> Result<(), ErrCode>
        ensures ok { OnOk result (StartsLists self.old self.new lists) }
        ensures rings { OnOk result (NoneIsTooLong self.old.session lists) }
        ensures refused { IfErr result (IsRefusedAt self.old.session self.new.channels lists) }
        ensures err { OnErr result (LooksAtAll self.old self.new) }
    {
        let sets = self.sets_of(lists);
        let sets = &sets[..self.channels.len()];
        if !self.channels.can_start(sets) {
            return Err(ErrCode::CmdBusy);
        }
        if self.has_too_long(lists) {
            return Err(ErrCode::MemoryOverflow);
        }
        self.channels.start_checked(sets);
        Ok(())
    }

    /// Orders the starts of these lists in a measurement that was just opened. They always find
    /// places, since no order waits there.
    fn start_opened(&mut self, lists: ListSet)
        requires opened { AreJustOut self.old }
        ensures starts { StartsLists self.old self.new lists }
    {
        let sets = self.sets_of(lists);
        self.channels.start_checked(&sets[..self.channels.len()]);
    }

    /// Those of the lists that are ready and whose modes name this event channel.
    fn set_on(&self, lists: ListSet, c: ChannelId) -> ListSet
        ensures set { IsSetOn self.now.session lists c result }
    {
        let set = lists.intersection(self.session.lists_on(c));
        // for the proof: a set that isn't empty has a list
        let _ = set.is_empty();
        set
    }

    /// Those of the lists that are ready, by the event channel that their modes name.
    fn sets_of(&self, lists: ListSet) -> [ListSet; MAX_CHANNELS as usize]
        ensures sets { AreSets self.now.session lists result }
        ensures many { length result ≡ MAX_CHANNELS }
    {
        let mut sets = [ListSet::none(); MAX_CHANNELS as usize];
        for c in 0..MAX_CHANNELS as usize {
            sets[c] = self.set_on(lists, ChannelId::at(c));
        }
        sets
    }
}
