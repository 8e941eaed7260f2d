//! One event channel at the slave: parts of measurements are opened, started, stopped and
//! taken back.
use crate::finished::Finished;
use crate::opened_with::OpenedWith;
use crate::ring_ends::open_ends;
use crate::share::Share;
use daq_store::Store;
use frame_ring::{FrameLeft, FrameSend};
use hand_over::keep_newest;
use sampler::SamplerEnd;
use slave_outbox::{Intake, Outbox, Step};
use std::alloc::{AllocError, Global};
use std::marker::Model;
use tasks::{HandFault, Task, TaskEnd, TaskLink};
use xcp_base::limits::MAX_LISTS;
use xcp_base::{ChannelId, ListId, ListSet};

/// The slave's side of one event channel.
///
/// At most two measurements are out: one that the channel's task holds, and the newest. Nothing
/// here waits for the task.
#[derive(Drop)]
pub struct Channel {
    link: TaskLink<FrameSend>,
    pub(crate) older: Option<Share>,
    pub(crate) newer: Option<Share>,
}

impl Model for Channel {
    ghost use Rattle.slave_channels.specs.Channels.{ChannelState, Fits};
    ghost use Rattle.slave_channels.specs.Codes.{end_codes};

    ghost Value = { ChannelState };

    ghost coded = { Prim.hlevel end_codes };

    ghost view = { λ c. record { link = c.link; older = c.older; newer = c.newer } };

    ghost invariant = { λ c. Fits c.link.older c.older × Fits c.link.newer c.newer };
}

ghost use Rattle.std.specs.Prelude.{◌≡◌, ℕ, ◌<◌, ◌++◌, Bool, [], None, Some, true, false};
ghost use Rattle.std.specs.Prelude.{IfOk, IfSome, IsNone, IsSome, OnErr, OnOk};
ghost use Rattle.xcp_base.specs.declared.limits.TheConstants.{MAX_LISTS};
ghost use Rattle.xcp_base.specs.Lists.{has_list};
ghost use Rattle.slave_outbox.specs.Deeds.{Started, Stopped};
ghost use Rattle.slave_channels.specs.Channels.{NewestGoesOn, is_within};
ghost use Rattle.slave_channels.specs.PartInner.{ComesOf, EndStays, FinishesAs};

/// Whether a part is of a measurement with a number from `from` to below `to`.
fn is_within(part: &Option<Share>, from: u64, to: u64) -> bool
    ensures { result ≡ is_within from to part.now }
{
    match part {
        Some(share) => from <= share.number && share.number < to,
        None => false,
    }
}

/// The intake of the newest part is told of a start.
fn note_start(newer: &mut Option<Share>, l: ListId)
    ensures goes_on { IsSome newer.old → NewestGoesOn newer.old newer.new (Started l) }
    ensures end_stays { EndStays newer.old newer.new }
{
    if let Some(share) = newer {
        share.intake.start(l);
    }
}

/// The intake of the newest part is told of a stop.
fn note_stop(newer: &mut Option<Share>, l: ListId)
    ensures goes_on { IsSome newer.old → NewestGoesOn newer.old newer.new (Stopped l) }
    ensures end_stays { EndStays newer.old newer.new }
{
    if let Some(share) = newer {
        share.intake.stop(l);
    }
}

/// A part that has ended, with what is left of its sampler.
fn finish(part: &mut Option<Share>, end: SamplerEnd<FrameLeft>) -> Option<Finished>
    requires came { ComesOf part.old end }
    ensures some { IfSome result (FinishesAs part.old end) }
    ensures always { IsSome result }
    ensures gone { part.new ≡ None }
{
    let Share {
        number,
        opened,
        mut intake,
    } = part.take()?;
    let mut end = end;
    intake.after(&mut end);
    Some(Finished {
        number,
        opened,
        end,
        intake,
    })
}

impl Channel {
    ghost use Rattle.std.specs.Option.{is_some};
    ghost use Rattle.frame_ring.specs.contracts.frame_send.FrameSendSendEnd.TheImpl.{ghosts as send};
    ghost use Rattle.slave_channels.specs.Channels.{AnswersOpen, IsBackOf, Opens, Orders};
    ghost use Rattle.slave_channels.specs.Channels.{keeps_part, keeps_two, keeps_within};
    ghost use Rattle.slave_channels.specs.Channels.{no_measurement, number_of};
    ghost use Rattle.tasks.specs.Links.{CanStart, EndsNewest, LooksAtNewest, NoneIsBack};
    ghost use Rattle.tasks.specs.Links.{hand_refusal, is_out, is_running, takes_orders, without};
    ghost use Rattle.tasks.specs.Tasks.{just_begun};
    ghost use Rattle.channel_ring.specs.declared.order.Order.TheVariants.{Start, Stop};

    /// The slave's side of an event channel, and its task. No measurement is there.
    pub fn new(alloc: Global) -> Result<(Channel, Task<FrameSend>), AllocError>
        ensures channel { IfOk result (λ made. made.0 ≡ no_measurement made.1.ring) }
        ensures task { IfOk result (λ made. made.1 ≡ just_begun made.0.link.ring) }
    {
        let (link, task) = TaskLink::new(alloc)?;
        let channel = Channel {
            link,
            older: None,
            newer: None,
        };
        Ok((channel, task))
    }

    /// Opens the channel's part of a measurement, with a ring of its own of `cap` bytes, and hands
    /// its sampler out to the task. It has the DAQ lists of the channel `c` that are ready in the
    /// store.
    ///
    /// Refused, in this order: with `Memory`, if there is no memory for the sampler and its ring;
    /// then as `TaskLink::hand_out` refuses it. Then nothing has changed.
    pub fn open(
        &mut self,
        alloc: Global,
        store: &Store,
        c: ChannelId,
        cap: usize,
        number: u64,
    ) -> Result<(), HandFault>
        ensures answer { AnswersOpen (hand_refusal self.old.link) result }
        ensures ok { OnOk result (Opens self.old self.new store.now c cap number) }
        ensures err { OnErr result (self.new ≡ self.old) }
    {
        let Ok((sampler, take)) = open_ends(alloc, store, c, cap) else {
            return Err(HandFault::Memory);
        };
        if let Err((fault, _)) = self.link.hand_out(alloc, sampler) {
            return Err(fault);
        }
        let share = Share {
            number,
            opened: OpenedWith::of(store, c, cap),
            intake: Intake::new(take),
        };
        keep_newest(&mut self.older, &mut self.newer, share);
        Ok(())
    }

    /// Whether a part of a measurement is kept here: what is left of its sampler was not taken
    /// back.
    pub fn has_parts(&self) -> bool
        ensures { result ≡ keeps_part self.now }
    {
        self.older.is_some() || self.newer.is_some()
    }

    /// Whether a part of the measurement before the newest is kept here.
    pub fn has_older(&self) -> bool
        ensures { result ≡ is_some self.now.older }
    {
        self.older.is_some()
    }

    /// Whether a part is kept here of a measurement with a number from `from` to below `to`.
    pub fn has_part_within(&self, from: u64, to: u64) -> bool
        ensures { result ≡ keeps_within from to self.now }
    {
        is_within(&self.older, from, to) || is_within(&self.newer, from, to)
    }

    /// Whether parts of two measurements are kept here: there is no room for one more.
    pub fn is_full(&self) -> bool
        ensures { result ≡ keeps_two self.now }
    {
        self.older.is_some() && self.newer.is_some()
    }

    /// The number of the last measurement with a part here, if that part is kept.
    pub fn newest(&self) -> Option<u64>
        ensures { result ≡ number_of self.now.newer }
    {
        match &self.newer {
            Some(share) => Some(share.number),
            None => None,
        }
    }

    /// The set of the DAQ lists that run by the orders that were sent.
    pub fn running(&self) -> ListSet
        ensures { (l : ℕ) → l < MAX_LISTS
            → has_list result l ≡ is_running self.now.link.newer l }
    {
        self.link.running()
    }

    /// Whether starts of all these lists find places at the task, with the stops of all lists that
    /// then run and an order to end.
    pub fn can_start(&mut self, lists: ListSet) -> bool
        ensures yes { result ≡ true → CanStart self.new.link.newer (has_list lists) }
        ensures no { result ≡ false → ¬ CanStart self.new.link.newer (has_list lists) }
        ensures looked { LooksAtNewest self.old.link.newer self.new.link.newer }
        ensures rest_stays { self.new ≡ record self.old {
          link = record self.old.link { newer = self.new.link.newer };
        } }
    {
        self.link.can_start(lists)
    }

    /// Orders the start of a list that was checked by `can_start`, alone or with others, which then
    /// still find places. It takes no memory.
    pub fn start(&mut self, l: ListId)
        requires checked { (lists : ℕ → Bool) × (lists l ≡ true)
            × CanStart self.old.link.newer lists }
        ensures orders { Orders self.old self.new (Start l) (Started l) }
        ensures others { (lists : ℕ → Bool) → lists l ≡ true → CanStart self.old.link.newer lists
            → CanStart self.new.link.newer (without l lists) }
    {
        self.link.start(l);
        note_start(&mut self.newer, l);
    }

    /// Orders the stop of a list that runs. It always finds a place, and takes no memory: from then
    /// on no sample of the list is written until its next start.
    pub fn stop(&mut self, l: ListId)
        requires runs { is_running self.old.link.newer l ≡ true }
        ensures orders { Orders self.old self.new (Stop l) (Stopped l) }
    {
        self.link.stop(l);
        note_stop(&mut self.newer, l);
    }

    /// Ends the measurement that is there, if one is: its task gives back what is left of its
    /// sampler, as soon as it looks.
    pub fn end(&mut self)
        ensures none { takes_orders self.old.link.newer ≡ false → self.new ≡ self.old }
        ensures ends { takes_orders self.old.link.newer ≡ true
            → EndsNewest self.old.link self.new.link }
        ensures parts_stay { self.new ≡ record self.old { link = self.new.link } }
    {
        self.link.end();
    }

    /// Looks at all that the task gave back so far, which was finished. From then on each of it is
    /// known to come.
    pub fn beside(&mut self, end: &mut TaskEnd<FrameSend>)
        requires one_line { end.old.ring ≡ self.old.link.ring }
        ensures all { self.new.link.came ++ self.new.link.coming ≡ end.old.gave }
        ensures no_more { is_out self.old.link.older ≡ false → is_out self.old.link.newer ≡ false
            → self.new.link.coming ≡ [] }
        ensures rest_stays { self.new
            ≡ record self.old {
              link = record self.old.link { coming = self.new.link.coming };
            } }
        ensures end_stays { end.new ≡ end.old }
    {
        self.link.beside(end);
    }

    /// What came back of the measurement before the last.
    pub fn take_older(&mut self) -> Option<Finished>
        ensures back { IfSome result
            (IsBackOf self.old.link self.new.link self.old.link.older self.old.older) }
        ensures some { IsSome result → (self.new.link.older ≡ None) × (self.new.older ≡ None) }
        ensures none { IsNone result → (self.new.older ≡ self.old.older)
            × NoneIsBack send self.old.link self.new.link false
            self.old.link.older self.new.link.older }
        ensures link { self.new.link
            ≡ record self.old.link {
              came = self.new.link.came;
              coming = self.new.link.coming;
              older = self.new.link.older;
            } }
        ensures newer_stays { self.new.newer ≡ self.old.newer }
    {
        let (end, _) = self.link.take_older()?;
        finish(&mut self.older, end)
    }

    /// What came back of the last measurement.
    pub fn take_newer(&mut self) -> Option<Finished>
        ensures back { IfSome result
            (IsBackOf self.old.link self.new.link self.old.link.newer self.old.newer) }
        ensures some { IsSome result → (self.new.link.newer ≡ None) × (self.new.newer ≡ None) }
        ensures none { IsNone result → (self.new.newer ≡ self.old.newer)
            × NoneIsBack send self.old.link self.new.link (is_out self.old.link.older)
            self.old.link.newer self.new.link.newer }
        ensures link { self.new.link
            ≡ record self.old.link {
              came = self.new.link.came;
              coming = self.new.link.coming;
              newer = self.new.link.newer;
            } }
        ensures older_stays { self.new.older ≡ self.old.older }
    {
        let (end, _) = self.link.take_newer()?;
        finish(&mut self.newer, end)
    }
}
