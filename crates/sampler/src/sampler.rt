//! The sampler of an event channel: its triggers, its starts and stops, and its finish.
ghost use Rattle.std.specs.Prelude.{◌≡◌, ℕ, ◌<◌, ◌≤◌, ◌+◌, ◌↔◌, ◌≢◌, ◌&&◌, true, false, []};
ghost use Rattle.std.specs.Prelude.{◌++◌, None};
ghost use Rattle.std.specs.Prelude.{IfOk, IfSome, IsNone, OnErr, OnOk, length, map, nat_eq};
ghost use Rattle.std.specs.Prelude.{option_map};
ghost use Rattle.std.specs.List.{list_any};
ghost use Rattle.std.specs.Result.{result_err};
ghost use Rattle.xcp_base.specs.declared.limits.TheConstants.{MAX_CHANNELS};
ghost use Rattle.channel_ring.specs.Room.{units};
ghost use Rattle.segments.specs.Image.{HaveImage, image_len, image_of, image_segments};
ghost use Rattle.segments.specs.Memory.{fits, parts};
ghost use Rattle.copy_plan.specs.Config.{ListPlan};
ghost use Rattle.copy_plan.specs.Memory.{FitsMemory, image_in};
ghost use Rattle.xcp_base.specs.Lists.{has_list};
ghost use Rattle.sampler.specs.History.{Start, Stop, is_list_of, runs_after};
ghost use Rattle.sampler.specs.Items.{marker_of};
ghost use Rattle.sampler.specs.Limits.{AllKeepTo};
ghost use Rattle.sampler.specs.Past.{Past, first_past};
ghost use Rattle.sampler.specs.Refusals.{AnswersStop, memory_refusal, running_at};
ghost use Rattle.sampler.specs.Refusals.{start_refusal, stop_refusal, trigger_refusal};
ghost use Rattle.sampler.specs.Sets.{IsSetOf};
ghost use Rattle.sampler.specs.Standing.{EndStandsAfter, GoesOn, StandsAfter, TakesTrigger};
ghost use Rattle.sampler.specs.State.{ArePlansOf, RiseFrom, joined, runs_in, stopped_in, track_at};
ghost use Rattle.sampler.specs.Stays.{HasNoRoomFor, KeepsSetUp, OnlyLooked};
ghost use Rattle.sampler.specs.Tracks.{counts_after};
ghost use Rattle.sampler.specs.declared.track.Track.{Track};

use crate::at_trigger::sample_lists;
use crate::counts::ListCounts;
use crate::faults::{MemoryFault, StartFault, StopFault, TriggerFault};
use crate::lists::Lists;
use crate::moment::Moment;
use crate::sampler_end::SamplerEnd;
use crate::taken::{NONE_TAKEN, Taken};
use arrayvec::ArrayVec;
use channel_ring::{Beside, SendEnd};
use copy_plan::CopyPlan;
use segments::limits::MAX_SEGMENTS;
use segments::{Segment, Segments, fits, image_len, image_segment};
use std::marker::Model;
use xcp_base::limits::MAX_TRIGGERS;
use xcp_base::{ChannelId, MemoryView, StopMark};

/// The sampler of one event channel: it takes the triggers, decides which DAQ lists are due, and
/// sends their samples.
///
/// Contracts speak of the pasts that it stands after. A past is what the channel was opened with, a
/// history, which is the list of the accepted triggers, starts and stops, and decisions, one for
/// each list that was due, in order, true if its sample was accepted.
#[derive(Drop)]
pub struct Sampler<S: SendEnd> {
    channel: ChannelId,
    image_len: usize,
    segments: ArrayVec<Segment, MAX_SEGMENTS>,
    lists: Lists,
    end: S,
    triggers: u64,
    // No list is due before this trigger, so a trigger at which none is costs one comparison.
    soonest: u64,
    accepted: u64,
}

impl<S: SendEnd> Model for Sampler<S> {
    ghost use Rattle.std.specs.Prelude.{◌<◌, length, take};
    ghost use Rattle.sampler.specs.State.{SamplerState};
    ghost use Rattle.sampler.specs.Inner.Fits.{IsSampler};

    ghost Value = { SamplerState S };

    ghost view = { λ s. record {
      channel = s.channel;
      segments = s.segments.items;
      plans = s.lists.plans.items;
      end = s.end;
      tracks = take (length s.lists.plans.items) s.lists.tracks;
      triggers = s.triggers;
      accepted = s.accepted;
    } };

    ghost invariant = { λ s.
        IsSampler s.channel s.image_len s.segments.items s.lists.plans.items s.lists.tracks
        s.triggers s.soonest s.accepted (S.limit s.end) };
}

impl<S: SendEnd> Sampler<S> {
    /// A sampler of an event channel for images of `image_len` bytes.
    ///
    /// `plans` are those of the channel's DAQ lists, in rising list number; `running` is the set of
    /// the lists that run; `end` is a send end through which nothing was sent, and which takes
    /// their samples.
    pub fn new(
        channel: u8,
        plans: Vec<CopyPlan>,
        end: S,
        image_len: usize,
        running: u16,
    ) -> Sampler<S>
        requires channel_below { channel < MAX_CHANNELS }
        requires plans_of { ArePlansOf channel (image_segments image_len) plans.items }
        requires rising { RiseFrom 0 plans.items }
        requires keep { AllKeepTo (S.limit end) plans.items }
        requires running { (l : ℕ) → has_list running l ≡ true
            → list_any (λ (plan : ListPlan). nat_eq plan.list l) plans.items ≡ true }
        requires nothing_sent { S.sent end ≡ [] }
        ensures stands { StandsAfter S.SendEnd S.End.RingEnd result
            (first_past (record { channel = channel; plans = plans.items; running = running })) }
        ensures end { result.end ≡ end }
        ensures segments { result.segments ≡ image_segments image_len }
    {
        let mut segments = ArrayVec::new();
        segments.push(image_segment(image_len));
        Sampler::in_these(channel, plans, end, segments, running)
    }

    /// The same for memory in these segments.
    pub fn over(
        channel: u8,
        plans: Vec<CopyPlan>,
        end: S,
        segments: &Segments,
        running: u16,
    ) -> Sampler<S>
        requires channel_below { channel < MAX_CHANNELS }
        requires plans_of { ArePlansOf channel segments.now plans.items }
        requires rising { RiseFrom 0 plans.items }
        requires keep { AllKeepTo (S.limit end) plans.items }
        requires running { (l : ℕ) → has_list running l ≡ true
            → list_any (λ (plan : ListPlan). nat_eq plan.list l) plans.items ≡ true }
        requires nothing_sent { S.sent end ≡ [] }
        ensures stands { StandsAfter S.SendEnd S.End.RingEnd result
            (first_past (record { channel = channel; plans = plans.items; running = running })) }
        ensures end { result.end ≡ end }
        ensures segments { result.segments ≡ segments.now }
    {
        Sampler::in_these(channel, plans, end, segments.copied(), running)
    }

    /// The same for these segments.
    fn in_these(
        channel: u8,
        plans: Vec<CopyPlan>,
        end: S,
        segments: ArrayVec<Segment, MAX_SEGMENTS>,
        running: u16,
    ) -> Sampler<S>
        requires channel_below { channel < MAX_CHANNELS }
        requires image { HaveImage segments.items }
        requires plans_of { ArePlansOf channel segments.items plans.items }
        requires rising { RiseFrom 0 plans.items }
        requires keep { AllKeepTo (S.limit end) plans.items }
        requires running { (l : ℕ) → has_list running l ≡ true
            → list_any (λ (plan : ListPlan). nat_eq plan.list l) plans.items ≡ true }
        requires nothing_sent { S.sent end ≡ [] }
        ensures stands { StandsAfter S.SendEnd S.End.RingEnd result
            (first_past (record { channel = channel; plans = plans.items; running = running })) }
        ensures end { result.end ≡ end }
        ensures segments { result.segments ≡ segments.items }
    {
        let lists = Lists::new(plans, running);
        let soonest = lists.soonest();
        Sampler {
            channel: ChannelId::at(channel as usize),
            image_len: image_len(segments.as_slice()),
            segments,
            lists,
            end,
            triggers: 0,
            soonest,
            accepted: 0,
        }
    }

    /// Takes a trigger, with the memory image and a timestamp in ticks.
    ///
    /// The sample of each DAQ list that is due is made and offered to the ring, in rising list
    /// number; what finds no room is dropped whole. A list that lost a sample has the overload
    /// indication in its next accepted one (ASAM MCD-1 XCP, protocol layer, identification field).
    /// Refused with `WrongImage`, or with `Spent` once `MAX_TRIGGERS` triggers were accepted. It
    /// takes no memory.
    pub fn trigger(&mut self, image: &[u8], stamp: u32) -> Result<Taken, TriggerFault>
        ensures ok { IfOk result (λ taken.
            (past : Past) → StandsAfter S.SendEnd S.End.RingEnd self.old past
            → TakesTrigger S.SendEnd S.End.RingEnd self.old self.new taken past image.now stamp) }

        ensures wrong_image { (result ≡ Err TriggerFault.WrongImage)
            ↔ (length image.now ≢ image_len self.old.segments) }
        ensures spent { (result ≡ Err TriggerFault.Spent)
            ↔ ((length image.now ≡ image_len self.old.segments)
            × (self.old.triggers ≡ MAX_TRIGGERS)) }
        ensures refused { (past : Past) → StandsAfter S.SendEnd S.End.RingEnd self.old past
            → result_err result
            ≡ trigger_refusal (image_len self.old.segments) past image.now }
        ensures err { OnErr result (self.new ≡ self.old) }

        ensures set_up_stays { KeepsSetUp S.SendEnd self.old self.new }
    {
        if image.len() != self.image_len {
            return Err(TriggerFault::WrongImage);
        }
        if self.triggers == MAX_TRIGGERS {
            return Err(TriggerFault::Spent);
        }
        Ok(self.take(MemoryView::Image(image), stamp))
    }

    /// Takes a trigger, with memory as it is: a slice for each segment, in their order. Of a
    /// segment that the event channel may not read nothing is looked at, and of the others nothing
    /// but the bytes of entries of DAQ lists that are due. What `trigger` does is done with the
    /// image that this memory is.
    ///
    /// Refused with `WrongMemory` if there isn't a slice for each segment, or one of a segment that
    /// the event channel may read has another length; or with `Spent`. It takes no memory.
    pub fn trigger_over(&mut self, memory: &[&[u8]], stamp: u32) -> Result<Taken, MemoryFault>
        ensures ok { IfOk result (λ taken.
            (past : Past) → StandsAfter S.SendEnd S.End.RingEnd self.old past
            → TakesTrigger S.SendEnd S.End.RingEnd self.old self.new taken past
            (image_of self.old.channel self.old.segments (parts memory.now)) stamp) }

        ensures wrong_memory { (result ≡ Err MemoryFault.WrongMemory)
            ↔ (fits self.old.channel self.old.segments (parts memory.now) ≡ false) }
        ensures spent { (result ≡ Err MemoryFault.Spent)
            ↔ ((fits self.old.channel self.old.segments (parts memory.now) ≡ true)
            × (self.old.triggers ≡ MAX_TRIGGERS)) }
        ensures refused { (past : Past) → StandsAfter S.SendEnd S.End.RingEnd self.old past
            → result_err result
            ≡ memory_refusal self.old.channel self.old.segments past (parts memory.now) }
        ensures err { OnErr result (self.new ≡ self.old) }

        ensures set_up_stays { KeepsSetUp S.SendEnd self.old self.new }
    {
        if !fits(self.segments.as_slice(), self.channel.byte(), memory) {
            return Err(MemoryFault::WrongMemory);
        }
        if self.triggers == MAX_TRIGGERS {
            return Err(MemoryFault::Spent);
        }
        Ok(self.take(MemoryView::Parts(memory), stamp))
    }

    /// Takes a trigger that isn't refused.
    #[inline]
    fn take(&mut self, memory: MemoryView<'_>, stamp: u32) -> Taken
        requires fit { FitsMemory self.old.channel self.old.segments memory }
        requires more { self.old.triggers ≢ MAX_TRIGGERS }
        ensures taken { (past : Past) → StandsAfter S.SendEnd S.End.RingEnd self.old past
            → TakesTrigger S.SendEnd S.End.RingEnd self.old self.new result past
            (image_in self.old.channel self.old.segments memory.entry) stamp }

        ensures set_up_stays { KeepsSetUp S.SendEnd self.old self.new }
    {
        if self.triggers < self.soonest {
            self.triggers += 1;
            return NONE_TAKEN;
        }
        let moment = Moment {
            channel: self.channel,
            trigger: self.triggers,
            segments: &self.segments,
            memory,
            stamp,
        };
        let (taken, accepted, soonest) = sample_lists(
            &mut self.end,
            &moment,
            self.accepted,
            self.lists.plans.as_slice(),
            &mut self.lists.tracks,
        );
        self.end.publish();
        self.accepted = accepted;
        self.triggers += 1;
        self.soonest = soonest;
        taken
    }

    /// Starts a DAQ list: it is due at the next trigger, and then at each `prescaler`-th (ASAM
    /// MCD-1 XCP, protocol layer, SET_DAQ_LIST_MODE).
    ///
    /// Refused with `NotOfChannel`, or with `Running`.
    pub fn start(&mut self, l: u8) -> Result<(), StartFault>
        ensures ok { OnOk result (GoesOn S.SendEnd S.End.RingEnd self.old self.new (Start l)) }

        ensures not_of_channel { (result ≡ Err StartFault.NotOfChannel)
            ↔ (track_at self.old l ≡ None) }
        ensures running { (result ≡ Err StartFault.Running) ↔ (runs_in self.old l ≡ true) }
        ensures refused { (past : Past) → StandsAfter S.SendEnd S.End.RingEnd self.old past
            → result_err result ≡ start_refusal (running_at past l) }
        ensures err { OnErr result (self.new ≡ self.old) }

        ensures set_up_stays { KeepsSetUp S.SendEnd self.old self.new }
        ensures end_stays { self.new.end ≡ self.old.end }
    {
        let Some(place) = self.lists.place_of(l) else {
            return Err(StartFault::NotOfChannel);
        };
        if self.lists.tracks[place].running {
            return Err(StartFault::Running);
        }
        self.lists.tracks[place] = self.lists.tracks[place].started(self.triggers);
        self.soonest = self.soonest.min(self.triggers);
        Ok(())
    }

    /// Stops a DAQ list, and sends its stop marker.
    ///
    /// Refused with `NotOfChannel` or with `NotRunning`, which leave the sampler as it was; or with
    /// `NoRoom`, if the marker found no room: the list still runs, nothing was sent, and only more
    /// units may be known to be free.
    pub fn stop(&mut self, l: u8) -> Result<(), StopFault>
        ensures ok { OnOk result (GoesOn S.SendEnd S.End.RingEnd self.old self.new (Stop l)) }

        ensures not_of_channel { (result ≡ Err StopFault.NotOfChannel)
            ↔ (track_at self.old l ≡ None) }
        ensures not_running { (result ≡ Err StopFault.NotRunning) ↔ (stopped_in self.old l ≡ true) }
        ensures no_room { result ≡ Err StopFault.NoRoom
            → HasNoRoomFor S.SendEnd S.End.RingEnd self.old.end (marker_of self.old.channel l) }
        ensures refused { (past : Past) → StandsAfter S.SendEnd S.End.RingEnd self.old past
            → AnswersStop (stop_refusal (running_at past l)) (result_err result) }
        ensures not_of_channel_stays { result ≡ Err StopFault.NotOfChannel → self.new ≡ self.old }
        ensures not_running_stays { result ≡ Err StopFault.NotRunning → self.new ≡ self.old }
        ensures err { OnErr result (OnlyLooked S.SendEnd S.End.RingEnd self.old self.new) }

        ensures set_up_stays { KeepsSetUp S.SendEnd self.old self.new }
    {
        let Some(place) = self.lists.place_of(l) else {
            return Err(StopFault::NotOfChannel);
        };
        if !self.lists.tracks[place].running {
            return Err(StopFault::NotRunning);
        }
        if !self.end.offer_marker(StopMark::new(self.channel.byte(), l)) {
            return Err(StopFault::NoRoom);
        }
        self.lists.tracks[place] = self.lists.tracks[place].stopped();
        self.soonest = self.lists.soonest();
        Ok(())
    }

    /// How often a DAQ list was due, and what became of its samples; `None` if it isn't of the
    /// channel.
    pub fn counts(&self, l: u8) -> Option<ListCounts>
        ensures kept { result ≡ option_map (λ (track : Track). track.counts) (track_at self.now l) }
        ensures after { (past : Past) → StandsAfter S.SendEnd S.End.RingEnd self.now past
            → result ≡ counts_after past l }
    {
        self.lists.counts(l)
    }

    /// The number of the event channel.
    pub fn channel(&self) -> u8
        ensures { result ≡ self.now.channel }
    {
        self.channel.byte()
    }

    /// The set of the channel's DAQ lists.
    pub fn lists(&self) -> u16
        ensures { IsSetOf result self.now.plans }
    {
        self.lists.set()
    }

    /// The set of the DAQ lists that run.
    pub fn running(&self) -> u16
        ensures kept { (l : ℕ) → has_list result l ≡ runs_in self.now l }
        ensures after { (past : Past) → StandsAfter S.SendEnd S.End.RingEnd self.now past
            → (l : ℕ) → has_list result l
            ≡ (is_list_of past.opening l && runs_after past.opening past.history l) }
    {
        self.lists.running()
    }

    /// Looks at the other end of the ring, and returns the units known to be free from then on.
    pub fn room(&mut self) -> usize
        ensures value { result ≡ S.free self.new.end }
        ensures looked { OnlyLooked S.SendEnd S.End.RingEnd self.old self.new }
    {
        self.end.room()
    }

    /// Looks at all that was sent through the ring beside its take end, and returns how many items
    /// are left.
    ///
    /// The take end is that of the sampler's ring. From then on it knows each item left, and the
    /// sampler knows each unit to be free that none of them takes up; else it is as it was.
    pub fn beside<T: Beside<Send = S>>(&mut self, take: &mut T) -> usize
        requires one_ring { S.ring self.old.end ≡ T.ring take.old }
        ensures count { result ≡ length (T.known take.new) }
        ensures left { T.received take.new ++ T.known take.new ≡ S.sent self.new.end }
        ensures received_stays { T.received take.new ≡ T.received take.old }
        ensures take_ring_stays { T.ring take.new ≡ T.ring take.old }

        ensures looked { OnlyLooked S.SendEnd S.End.RingEnd self.old self.new }
        ensures roomy { S.capacity self.new.end
            ≤ S.free self.new.end + units S.End.cost (T.known take.new) }
    {
        take.beside(&mut self.end)
    }

    /// Gives the sampler up; what it sent stays in the ring. `None` only if the ring's `finish`
    /// answers it, since the take end was dropped before.
    pub fn finish(self) -> Option<SamplerEnd<S::End>>
        ensures stands { IfSome result (λ left.
            (past : Past) → StandsAfter S.SendEnd S.End.RingEnd self past
            → EndStandsAfter (joined S.End.RingEnd left) past) }
        ensures channel { IfSome result (λ left. left.channel ≡ self.channel) }
        ensures plans { IfSome result (λ left. left.plans ≡ self.plans) }
        ensures counts { IfSome result (λ left.
            left.counts ≡ map (λ (track : Track). track.counts) self.tracks) }
        ensures capacity { IfSome result (λ left. left.capacity ≡ S.capacity self.end) }
        ensures sent { IfSome result (λ left. S.End.all_sent left.end ≡ S.sent self.end) }
        ensures ring { IfSome result (λ left. S.End.ring left.end ≡ S.ring self.end) }
        ensures none { IsNone result → S.is_lost self.end }
    {
        let Sampler {
            channel,
            image_len: _,
            segments: _,
            lists,
            end,
            triggers: _,
            soonest: _,
            accepted: _,
        } = self;
        let capacity = end.capacity();
        let end = end.finish()?;
        Some(SamplerEnd {
            channel,
            lists,
            end,
            capacity,
        })
    }
}
