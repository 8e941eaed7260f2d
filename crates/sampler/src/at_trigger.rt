//! What one trigger does, list by list.
ghost use Rattle.std.specs.Prelude.{◌≡◌, ◌+◌, ◌^◌, ◌<◌, ◌≤◌, true, false, ◌++◌, length, take};
ghost use Rattle.xcp_base.specs.declared.limits.TheConstants.{MAX_TRIGGERS};
ghost use Rattle.channel_ring.specs.Room.{units};
ghost use Rattle.sampler.specs.Limits.{AllKeepTo, KeepsTo};
ghost use Rattle.sampler.specs.State.{ArePlansOf};
ghost use Rattle.sampler.specs.Inner.AtTrigger.{HandlesLists, first_stage};
ghost use Rattle.sampler.specs.Inner.AtTrigger.{item_of, row_items, row_of};
ghost use Rattle.sampler.specs.Inner.Fits.{NoneDueBefore, TracksFit};

use crate::moment::Moment;
use crate::offering::offer_sample;
use crate::taken::{NONE_TAKEN, Taken};
use crate::track::{NEVER, Track};
use channel_ring::SendEnd;
use copy_plan::CopyPlan;

/// What a trigger sends of one list, which is due or not, and whether a sample of it was accepted;
/// `track` is what was kept of it before.
#[tactic(auto, unfolding(crate::specs::Inner::AtTrigger::row_items))]
fn sample_list<S: SendEnd>(
    end: &mut S,
    moment: &Moment,
    plan: &CopyPlan,
    number: u64,
    track: &Track,
    due: bool,
) -> bool
    requires channel { plan.now.channel ≡ moment.now.channel }
    requires segments { plan.now.segments ≡ moment.now.segments }
    requires keeps { KeepsTo (S.limit end.old) plan.now }
    ensures due { result ≡ true → due ≡ true }
    ensures sent { S.sent end.new
        ≡ S.sent end.old ++ row_items moment.now number (row_of plan.now track.now due result) }
    ensures free { S.free end.old ≤ S.free end.new
        + units S.End.cost (row_items moment.now number (row_of plan.now track.now due result)) }
    ensures over_free { due ≡ true → result ≡ false
        → S.free end.old < S.End.cost (item_of moment.now plan.now number track.now.pending) }
    ensures capacity_stays { S.capacity end.new ≡ S.capacity end.old }
    ensures limit_stays { S.limit end.new ≡ S.limit end.old }
    ensures ring_stays { S.ring end.new ≡ S.ring end.old }
{
    if !due {
        return false;
    }
    offer_sample(end, moment, plan, number, track.pending)
}

/// What a trigger does for all lists of a channel: the sets of those due, accepted and dropped, the
/// next sample's number, and a trigger before which none of the lists is due again.
///
/// `number` is that of the first sample.
pub fn sample_lists<S: SendEnd>(
    end: &mut S,
    moment: &Moment,
    number: u64,
    plans: &[CopyPlan],
    tracks: &mut [Track],
) -> (Taken, u64, u64)
    requires plans_of { ArePlansOf moment.now.channel moment.now.segments plans.now }
    requires keep { AllKeepTo (S.limit end.old) plans.now }
    requires room { length plans.now ≤ length tracks.old }
    requires fit { TracksFit MAX_TRIGGERS plans.now tracks.old }
    requires trigger { moment.now.trigger ≤ MAX_TRIGGERS }
    requires number_below { number + length plans.now < 2 ^ 64 }
    ensures handled { HandlesLists S.SendEnd S.End.RingEnd moment.now plans.now
        (first_stage end.old tracks.old number)
        (record { end = end.new; tracks = tracks.new; taken = result.0; next = result.1 }) }
    ensures next { result.1 ≤ number + length plans.now }
    ensures soonest { NoneDueBefore result.2 (take (length plans.now) tracks.new) }
    ensures capacity_stays { S.capacity end.new ≡ S.capacity end.old }
    ensures limit_stays { S.limit end.new ≡ S.limit end.old }
    ensures ring_stays { S.ring end.new ≡ S.ring end.old }
{
    let mut taken = NONE_TAKEN;
    let mut next = number;
    let mut soonest = NEVER;
    for (place, plan) in plans.iter().enumerate() {
        let track = &tracks[place];
        let due = track.is_due(moment.trigger);
        let accepted = sample_list(end, moment, plan, next, track, due);
        taken.add(plan, due, accepted);
        if accepted {
            next += 1;
        }
        tracks[place].note(plan, due, accepted);
        soonest = soonest.min(tracks[place].next);
    }
    (taken, next, soonest)
}
