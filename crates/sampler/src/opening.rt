//! What is kept of lists at the opening.
ghost use Rattle.std.specs.Prelude.{◌≡◌, ◌<◌, ◌≤◌, length, map, take};
ghost use Rattle.copy_plan.specs.Config.{ListPlan};
ghost use Rattle.sampler.specs.Inner.Fits.{first_track};

use crate::track::{FIRST_TRACK, Track};
use copy_plan::CopyPlan;
use xcp_base::has_list;
use xcp_base::limits::MAX_LISTS;

/// The places for it: one for each list that there may be.
pub const PLACES: usize = MAX_LISTS as usize;

/// What is kept of a list that was never due; it runs if it is in the set.
fn first_track(running: u16, l: u8) -> Track
    requires { l < MAX_LISTS }
    ensures { result ≡ first_track running l }
{
    if !has_list(running, l) {
        return FIRST_TRACK;
    }
    FIRST_TRACK.started(0)
}

/// What is kept of the lists of some plans, which were never due, each at the place of its plan.
pub fn first_tracks(plans: &[CopyPlan], running: u16) -> [Track; PLACES]
    requires { length plans.now ≤ MAX_LISTS }
    ensures kept { take (length plans.now) result
        ≡ map (λ (plan : ListPlan). first_track running plan.list) plans.now }
    ensures places { length result ≡ MAX_LISTS }
{
    let mut tracks = [FIRST_TRACK; PLACES];
    for place in 0..plans.len() {
        tracks[place] = first_track(running, plans[place].list());
    }
    tracks
}
