//! The end of a transmission. Once all send ends were finished, nothing more is sent: the
//! transmitter looks at each ring, so that all items left in it are known, and empties the rings.
ghost use Rattle.std.specs.Prelude.{◌≡◌, ◌≢◌, ℕ, ◌<◌, ◌↔◌, IsTrue, true, false};
ghost use Rattle.std.specs.Prelude.{[], ◌++◌, length, map};
ghost use Rattle.sampler.specs.State.{joined, sent_by};
ghost use Rattle.transmitter.specs.Merge.{of_ring};
ghost use Rattle.transmitter.specs.Inner.Turns.{AllStay};

use crate::faults::PumpFault;
use crate::transmitter::Transmitter;
use channel_ring::{ItemTake, TakeEnd};
use frame_writer::Out;
use sampler::SamplerEnd;

/// Looks at all that was sent to ring `c`, so that each item left in it is known from then on, and
/// tells whether there is one.
fn look_at<T: ItemTake>(takes: &mut Vec<T>, ends: &mut [SamplerEnd<T::End>], c: usize) -> bool
    requires rings { map T.ring takes.old.items ≡ map (λ e. T.End.ring e.end) ends.old }
    requires ring { c < length ends.old }
    ensures stay { AllStay T.TakeEnd T.End.RingEnd takes.old.items takes.new.items
        ends.old ends.new }
    ensures others { (e : ℕ) → e ≢ c
        → of_ring (map T.known takes.new.items) e ≡ of_ring (map T.known takes.old.items) e }
    ensures left { of_ring (map T.received takes.new.items) c
        ++ of_ring (map T.known takes.new.items) c
        ≡ of_ring (sent_by (map (joined T.End.RingEnd) ends.old)) c }
    ensures some { IsTrue result ↔ (0 < length (of_ring (map T.known takes.new.items) c)) }
{
    let end = &mut ends[c];
    let take = &mut takes[c];
    end.after(take) > 0
}

/// Looks at all that was sent to all rings, so that each item left in them is known from then on,
/// and tells whether there is one.
fn look<T: ItemTake>(takes: &mut Vec<T>, ends: &mut [SamplerEnd<T::End>]) -> bool
    requires rings { map T.ring takes.old.items ≡ map (λ e. T.End.ring e.end) ends.old }
    ensures stay { AllStay T.TakeEnd T.End.RingEnd takes.old.items takes.new.items
        ends.old ends.new }
    ensures left { (c : ℕ) → of_ring (map T.received takes.new.items) c
        ++ of_ring (map T.known takes.new.items) c
        ≡ of_ring (sent_by (map (joined T.End.RingEnd) ends.old)) c }
    ensures some { result ≡ true
        → (c : ℕ) × (0 < length (of_ring (map T.known takes.new.items) c)) }
    ensures none { result ≡ false → (c : ℕ) → of_ring (map T.known takes.new.items) c ≡ [] }
{
    let mut some = false;
    for c in 0..ends.len() {
        let here = look_at(takes, ends, c);
        some = some || here;
    }
    some
}

impl<O: Out, T: ItemTake> Transmitter<O, T> {
    ghost use Rattle.std.specs.Prelude.{◌≡◌, true, false, map};
    ghost use Rattle.sampler.specs.State.{joined, sent_by};
    ghost use Rattle.transmitter.specs.Looks.{AreOfRings, EndsStay};
    ghost use Rattle.transmitter.specs.Looks.{KnowsAll, KnowsNone, KnowsSome, Looked};
    ghost use Rattle.transmitter.specs.Pumps.{TakesMore};
    ghost use Rattle.transmitter.specs.Rounds.{Drains};
    ghost use Rattle.transmitter.specs.Written.{transmission, writer_of};

    /// Looks at all that was sent through the finished ends of its rings, and tells whether an item
    /// is left.
    ///
    /// `ends` are those of the rings of event channels 0, 1, .. From then on each item left is
    /// known.
    pub fn after(&mut self, ends: &mut [SamplerEnd<T::End>]) -> bool
        requires one_rings { AreOfRings T.End.RingEnd (transmission O.Out T.TakeEnd self.old)
            ends.old }
        ensures left { KnowsAll (sent_by (map (joined T.End.RingEnd) ends.old))
            (transmission O.Out T.TakeEnd self.new) }
        ensures some { result ≡ true → KnowsSome (transmission O.Out T.TakeEnd self.new) }
        ensures none { result ≡ false → KnowsNone (transmission O.Out T.TakeEnd self.new) }

        ensures looked { Looked (transmission O.Out T.TakeEnd self.old)
            (transmission O.Out T.TakeEnd self.new) }
        ensures writer_stays { writer_of self.new ≡ writer_of self.old }
        ensures ends_stay { EndsStay T.End.RingEnd ends.old ends.new }
    {
        look(&mut self.ends, ends)
    }

    /// Pumps until every ring is known to be empty.
    ///
    /// `ends` are those of the rings of event channels 0, 1, .. Refused with `Closed` if the writer
    /// failed earlier, even if nothing is left. If a pump is refused with `Failed` or `Spent`, this
    /// is refused so too, and nothing more is taken.
    pub fn drain(&mut self, ends: &mut [SamplerEnd<T::End>]) -> Result<(), PumpFault>
        requires one_rings { AreOfRings T.End.RingEnd (transmission O.Out T.TakeEnd self.old)
            ends.old }
        ensures drains { Drains (sent_by (map (joined T.End.RingEnd) ends.old))
            (transmission O.Out T.TakeEnd self.old) (transmission O.Out T.TakeEnd self.new) result }
        ensures more { TakesMore (transmission O.Out T.TakeEnd self.old)
            (transmission O.Out T.TakeEnd self.new) }
        ensures rings_stay { (transmission O.Out T.TakeEnd self.new).rings
            ≡ (transmission O.Out T.TakeEnd self.old).rings }
        ensures ends_stay { EndsStay T.End.RingEnd ends.old ends.new }
    {
        if self.writer.closed() {
            return Err(PumpFault::Closed);
        }
        let mut left = self.after(ends);
        while left {
            let answer = self.pump();
            left = self.after(ends);
            answer?;
        }
        Ok(())
    }
}
