//! A finished sampler: its counts, and a last look at what it left in the ring.
ghost use Rattle.std.specs.Prelude.{◌≡◌, ℕ, ◌<◌, List};
ghost use Rattle.xcp_base.specs.declared.item.Item.{Item};
ghost use Rattle.xcp_base.specs.declared.limits.TheConstants.{MAX_CHANNELS};
ghost use Rattle.sampler.specs.Past.{Past};
ghost use Rattle.sampler.specs.Sets.{IsSetOf};
ghost use Rattle.sampler.specs.Standing.{EndStandsAfter};
ghost use Rattle.sampler.specs.State.{joined_with, counts_at};
ghost use Rattle.sampler.specs.Tracks.{counts_after};

use crate::counts::ListCounts;
use crate::lists::Lists;
use channel_ring::{RingEnd, TakeEnd};
use std::marker::Model;
use xcp_base::ChannelId;

/// What is left of a sampler that was finished: its event channel, its DAQ lists and their counts,
/// and the end of its ring.
#[derive(Drop)]
pub struct SamplerEnd<E> {
    pub(crate) channel: ChannelId,
    pub(crate) lists: Lists,
    pub(crate) end: E,
    pub(crate) capacity: usize,
}

impl<E> Model for SamplerEnd<E> {
    ghost use Rattle.std.specs.Prelude.{◌≡◌, ◌<◌, ◌≤◌, length, take, map};
    ghost use Rattle.xcp_base.specs.declared.limits.TheConstants.{MAX_LISTS};
    ghost use Rattle.sampler.specs.declared.track.Track.{Track};
    ghost use Rattle.sampler.specs.State.{SamplerEndState};

    ghost Value = { SamplerEndState E };

    ghost view = { λ s. record {
      channel = s.channel;
      plans = s.lists.plans.items;
      end = s.end;
      counts = map (λ (track : Track). track.counts)
          (take (length s.lists.plans.items) s.lists.tracks);
      capacity = s.capacity;
    } };

    ghost invariant = { λ s.
        (length s.lists.plans.items ≤ MAX_LISTS)
        × (length s.lists.tracks ≡ MAX_LISTS) };
}

impl<E> SamplerEnd<E> {
    /// The number of the event channel.
    pub fn channel(&self) -> u8
        ensures value { result ≡ self.now.channel }
        ensures below { result < MAX_CHANNELS }
    {
        self.channel.byte()
    }

    /// The set of the channel's DAQ lists.
    pub fn lists(&self) -> u16
        ensures { IsSetOf result self.now.plans }
    {
        self.lists.set()
    }

    /// How often a DAQ list was due, and what became of its samples; `None` if it isn't of the
    /// channel.
    pub fn counts(&self, l: u8) -> Option<ListCounts>
        ensures kept { result ≡ counts_at self.now l }
        ensures after { (cost : Item → ℕ) (sent : List Item) (past : Past)
            → EndStandsAfter (joined_with cost sent self.now) past → result ≡ counts_after past l }
    {
        self.lists.counts(l)
    }
}

impl<E: RingEnd + Drop> SamplerEnd<E> {
    ghost use Rattle.std.specs.Prelude.{◌≡◌, ◌++◌, length};

    /// Looks at all that was sent through the finished ring, and returns how many items are left.
    ///
    /// The take end is that of the ring. From then on it knows each item left; the sampler's end is
    /// as it was.
    pub fn after<T: TakeEnd<End = E>>(&mut self, take: &mut T) -> usize
        requires one_ring { E.ring self.old.end ≡ T.ring take.old }
        ensures count { result ≡ length (T.known take.new) }
        ensures left { T.received take.new ++ T.known take.new ≡ E.all_sent self.new.end }
        ensures received_stays { T.received take.new ≡ T.received take.old }
        ensures take_ring_stays { T.ring take.new ≡ T.ring take.old }

        ensures rest_stays { self.new ≡ record self.old { end = self.new.end } }
        ensures sent_stays { E.all_sent self.new.end ≡ E.all_sent self.old.end }
        ensures ring_stays { E.ring self.new.end ≡ E.ring self.old.end }
    {
        take.after(&mut self.end)
    }
}
