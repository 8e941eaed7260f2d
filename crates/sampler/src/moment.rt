//! What is the same for all DAQ lists that are due at one trigger.
use arrayvec::ArrayVec;
use segments::Segment;
use segments::limits::MAX_SEGMENTS;
use std::marker::Model;
use xcp_base::{ChannelId, MemoryView};

/// What the samples of one trigger have in common: the event channel, the number of triggers that
/// it accepted before, memory, which fits these segments, and the timestamp in ticks.
#[derive(Drop)]
pub struct Moment<'a> {
    pub channel: ChannelId,
    pub trigger: u64,
    pub segments: &'a ArrayVec<Segment, MAX_SEGMENTS>,
    pub memory: MemoryView<'a>,
    pub stamp: u32,
}

impl<'a> Model for Moment<'a> {
    ghost use Rattle.copy_plan.specs.Memory.{FitsMemory, image_in};
    ghost use Rattle.sampler.specs.Inner.Moments.{MomentParts};

    ghost Value = { MomentParts };

    ghost view = { λ m. record {
      channel = m.channel;
      trigger = m.trigger;
      segments = m.segments.now.items;
      image = image_in m.channel m.segments.now.items m.memory;
      stamp = m.stamp;
    } };

    ghost invariant = { λ m. FitsMemory m.channel m.segments.now.items m.memory };
}
