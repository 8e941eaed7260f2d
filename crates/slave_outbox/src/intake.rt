//! The slave's end of a ring: which samples it lays out, and which are from before a stop.
ghost use Rattle.std.specs.Prelude.{◌≡◌, ◌≢◌, ℕ, ◌<◌, Some, slice_get};
ghost use Rattle.xcp_base.specs.declared.limits.TheConstants.{MAX_LISTS};
ghost use Rattle.slave_outbox.specs.IntakeInner.{IsOfList, Notes};

use crate::laying::take_first;
use crate::list_intake::{FIRST, ListIntake};
use crate::origin::Origin;
use crate::step::Step;
use frame_page::FramePage;
use frame_ring::{FrameTake, Head};
use std::marker::Model;
use xcp_base::{ListId, PerList};

/// The slave's end of an event channel's ring, in one measurement.
///
/// It is told which starts and stops of DAQ lists the slave orders from the channel's task, when it
/// orders them. A sample that it takes is laid out if its list runs by these orders and the marker
/// of each stop came before it; else it is taken and not laid out: it is from before a stop. What
/// was laid out counts as written, until it is told that a sample was thrown away unsent.
///
/// Contracts speak of the deeds that it stands after: these orders, the items that it took, and the
/// samples that were thrown away.
#[derive(Drop)]
pub struct Intake {
    pub(crate) end: FrameTake,
    lists: PerList<ListIntake>,
}

impl Model for Intake {
    ghost use Rattle.frame_ring.specs.States.{take_state};
    ghost use Rattle.slave_outbox.specs.Intakes.{IntakeState};

    ghost Value = { IntakeState };

    ghost view = { λ i. record { end = take_state i.end; lists = i.lists } };
}

impl Intake {
    ghost use Rattle.std.specs.Prelude.{◌≡◌, ◌+◌, ◌<◌, ◌≤◌, [], List, length};
    ghost use Rattle.frame_ring.specs.Records.{blocks_for};
    ghost use Rattle.frame_ring.specs.Ends.{IsFirstHead};
    ghost use Rattle.frame_ring.specs.States.{take_state};
    ghost use Rattle.slave_outbox.specs.IntakeInner.{TakesHead};
    ghost use Rattle.slave_outbox.specs.Deeds.{Deed, Started, Stopped, Unsent, written_by};
    ghost use Rattle.slave_outbox.specs.Intakes.{GoesOn, StandsAfter};
    ghost use Rattle.slave_outbox.specs.Steps.{StepMeans};

    /// The intake of a ring from which nothing was taken. No list runs yet.
    pub fn new(end: FrameTake) -> Intake
        requires nothing_taken { (take_state end).received ≡ [] }
        ensures stands { StandsAfter result [] }
        ensures end { result.end ≡ take_state end }
    {
        Intake {
            end,
            lists: PerList::of(FIRST),
        }
    }

    /// A start of a DAQ list is ordered now.
    pub fn start(&mut self, l: ListId)
        ensures goes_on { GoesOn self.old self.new (Started l) }
        ensures end_stays { self.new.end ≡ self.old.end }
    {
        let kept = self.lists.get(l).started();
        self.lists.set(l, kept);
    }

    /// A stop of a DAQ list is ordered now: no sample of it is written until it is started again,
    /// and then none that was sent before its task saw this order.
    pub fn stop(&mut self, l: ListId)
        ensures goes_on { GoesOn self.old self.new (Stopped l) }
        ensures end_stays { self.new.end ≡ self.old.end }
    {
        let kept = self.lists.get(l).stopped();
        self.lists.set(l, kept);
    }

    /// A sample of a DAQ list that was laid out is thrown away now: it isn't written, but left.
    pub fn unsent(&mut self, l: ListId)
        ensures goes_on { GoesOn self.old self.new (Unsent l) }
        ensures end_stays { self.new.end ≡ self.old.end }
    {
        let kept = self.lists.get(l).threw();
        self.lists.set(l, kept);
    }

    /// Takes the next item of the ring, if one is there. A sample that passes is laid out in the
    /// page, as one that the event channel has in the measurement, if its frames have no more than
    /// `room` bytes; if they have more, it stays in the ring.
    ///
    /// It takes no memory. The page has blocks for the record of a sample whose frames have so many
    /// bytes, and a place.
    pub fn step(
        &mut self,
        page: &mut FramePage<Origin>,
        room: usize,
        measurement: u64,
        channel: u8,
    ) -> Step
        requires blocks { page.old.used + (2 + blocks_for room) ≤ page.old.blocks }
        requires place { length page.old.waits < page.old.most }
        ensures means { StepMeans self.old self.new page.old page.new measurement channel room
            result }
    {
        let Some(head) = self.end.look() else {
            return Step::Nothing;
        };
        self.take_head(head, page, room, measurement, channel)
    }

    /// The same where the first item of the ring has this head.
    #[inline(always)]
    fn take_head(
        &mut self,
        head: Head,
        page: &mut FramePage<Origin>,
        room: usize,
        measurement: u64,
        channel: u8,
    ) -> Step
        requires head { IsFirstHead head self.old.end }
        requires blocks { page.old.used + (2 + blocks_for room) ≤ page.old.blocks }
        requires place { length page.old.waits < page.old.most }
        ensures means { TakesHead self.old.end self.new.end self.old.lists
            page.old page.new measurement channel room result }
        ensures notes { Notes self.old.lists self.new.lists result }
    {
        let step = take_first(
            &mut self.end,
            head,
            &self.lists,
            page,
            room,
            measurement,
            channel,
        );
        note_step(&mut self.lists, step);
        step
    }

    /// How many samples of a DAQ list were written: laid out, and not thrown away.
    pub fn written(&self, l: ListId) -> u64
        ensures after { (deeds : List Deed) → StandsAfter self.now deeds
            → result ≡ written_by deeds l }
    {
        let kept = self.lists.get(l);
        kept.written.saturating_sub(kept.unsent)
    }
}

/// Notes what a step took.
fn note_step(lists: &mut PerList<ListIntake>, step: Step)
    requires list { IsOfList step }
    ensures notes { Notes lists.old lists.new step }
{
    match step {
        Step::Marked(l) => {
            let list = ListId::at(l as u16);
            let kept = lists.get(list).marked();
            lists.set(list, kept);
        }
        Step::Wrote(l, _) => {
            let list = ListId::at(l as u16);
            let kept = lists.get(list).wrote();
            lists.set(list, kept);
        }
        Step::Nothing | Step::Full | Step::Skipped(_) => {}
    }
}
