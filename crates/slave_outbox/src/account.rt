//! The account of an event channel, once what is left of its sampler is back.
use crate::intake::Intake;
use daq_engine::ListReport;
use frame_ring::FrameLeft;
use sampler::SamplerEnd;
use xcp_base::ListId;

impl Intake {
    ghost use Rattle.std.specs.Prelude.{◌≡◌, ◌++◌, IfSome, IsNone, List, None, length};
    ghost use mathlib.Core.List.{IsPrefix};
    ghost use Rattle.frame_ring.specs.States.{ended_state};
    ghost use Rattle.sampler.specs.Past.{Past};
    ghost use Rattle.sampler.specs.Standing.{EndStandsAfter};
    ghost use Rattle.sampler.specs.State.{counts_at};
    ghost use Rattle.transmitter.specs.Items.{samples};
    ghost use Rattle.daq_engine.specs.Order.{items_of};
    ghost use Rattle.daq_engine.specs.Overload.{HasMarks};
    ghost use Rattle.slave_outbox.specs.Accounts.{HasPlans, IsLineOf, no_line};
    ghost use Rattle.slave_outbox.specs.Deeds.{Deed, taken};
    ghost use Rattle.slave_outbox.specs.Ends.{left_state};
    ghost use Rattle.slave_outbox.specs.Intakes.{StandsAfter};

    /// Looks at all that was sent through the finished end of its ring, and returns how many items
    /// are left. From then on each of them is known.
    pub fn after(&mut self, end: &mut SamplerEnd<FrameLeft>) -> usize
        requires one_ring { (ended_state end.old.end).ring ≡ self.old.end.ring }
        ensures count { result ≡ length self.new.end.known }
        ensures left { self.new.end.received ++ self.new.end.known
            ≡ (ended_state end.new.end).sent }
        // so what was taken are the first of the items that the sampler sent
        ensures front { (past : Past) (deeds : List Deed) → StandsAfter self.old deeds
            → EndStandsAfter (left_state end.old) past
            → IsPrefix (taken deeds) (items_of past) }
        // and they are marked exactly behind drops
        ensures marks { (past : Past) (deeds : List Deed) → StandsAfter self.old deeds
            → EndStandsAfter (left_state end.old) past → HasPlans past
            → HasMarks past (samples (taken deeds)) }

        ensures stands { (deeds : List Deed) → StandsAfter self.old deeds
            → StandsAfter self.new deeds }
        ensures end_stays { left_state end.new ≡ left_state end.old }
        ensures ring_stays { (ended_state end.new.end).ring ≡ (ended_state end.old.end).ring }
        ensures own_ring_stays { self.new.end.ring ≡ self.old.end.ring }
    {
        end.after(&mut self.end)
    }

    /// What became of the samples of a DAQ list, if it is of the event channel.
    ///
    /// What was taken and not written is left, like what wasn't taken.
    pub fn line(&self, end: &SamplerEnd<FrameLeft>, l: ListId) -> Option<ListReport>
        ensures none { IsNone result → counts_at end.now l ≡ None }
        // none of its samples was due then, so its line would be of zeros
        ensures nothing { IsNone result → (past : Past) (deeds : List Deed)
            → StandsAfter self.now deeds
            → EndStandsAfter (left_state end.now) past
            → HasPlans past → IsPrefix (taken deeds) (items_of past)
            → IsLineOf past deeds l (no_line l) }
        ensures line { IfSome result (λ line. (past : Past) (deeds : List Deed)
            → StandsAfter self.now deeds
            → EndStandsAfter (left_state end.now) past
            → HasPlans past → IsPrefix (taken deeds) (items_of past)
            → IsLineOf past deeds l line) }
    {
        let list = l.byte();
        let counts = end.counts(list)?;
        let written = self.written(l);
        Some(ListReport {
            list,
            due: counts.due,
            written,
            dropped: counts.dropped,
            left: counts.accepted.saturating_sub(written),
        })
    }
}
