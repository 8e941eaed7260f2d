//! A due list's sample is offered to the ring, which has it made where it wants it.
ghost use Rattle.std.specs.Prelude.{◌≡◌, ◌+◌, ◌<◌, ◌≤◌, true, false, [], ◌∷◌, ◌++◌, length};
ghost use Rattle.sampler.specs.Inner.AtTrigger.{item_of};
ghost use Rattle.sampler.specs.Limits.{KeepsTo};

use crate::due_sample::DueSample;
use crate::moment::Moment;
use channel_ring::SendEnd;
use copy_plan::CopyPlan;
use xcp_base::ListId;

/// Offers the sample of a list, and returns whether it was accepted.
#[tactic(auto, unfolding(crate::specs::Inner::AtTrigger::item_of))]
pub fn offer_sample<S: SendEnd>(
    end: &mut S,
    moment: &Moment,
    plan: &CopyPlan,
    number: u64,
    marked: bool,
) -> bool
    requires channel { plan.now.channel ≡ moment.now.channel }
    requires segments { plan.now.segments ≡ moment.now.segments }
    requires keeps { KeepsTo (S.limit end.old) plan.now }
    ensures accepted { result ≡ true
        → S.sent end.new ≡ S.sent end.old ++ item_of moment.now plan.now number marked ∷ [] }
    ensures spent { result ≡ true
        → S.free end.old ≤ S.free end.new + S.End.cost (item_of moment.now plan.now number marked) }

    ensures dropped { result ≡ false → S.sent end.new ≡ S.sent end.old }
    ensures over_free { result ≡ false
        → S.free end.old < S.End.cost (item_of moment.now plan.now number marked) }
    ensures free_stays { result ≡ false → S.free end.old ≤ S.free end.new }

    ensures capacity_stays { S.capacity end.new ≡ S.capacity end.old }
    ensures limit_stays { S.limit end.new ≡ S.limit end.old }
    ensures ring_stays { S.ring end.new ≡ S.ring end.old }
{
    let list = ListId::at(plan.list() as u16);
    let sample = DueSample::of(plan, moment.memory, moment.stamp, marked);
    end.offer_sample(moment.channel, list, number, &sample)
}
