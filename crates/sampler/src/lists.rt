//! The DAQ lists of a sampler: where each stands, which run, and when the next one is due.
ghost use Rattle.std.specs.Prelude.{◌≡◌, ℕ, ◌≤◌, length, map, take, option_map};
ghost use Rattle.copy_plan.specs.Config.{ListPlan};
ghost use Rattle.xcp_base.specs.Lists.{has_list};
ghost use Rattle.sampler.specs.Sets.{IsSetOf};
ghost use Rattle.sampler.specs.State.{RiseFrom, found_at, place_of};
ghost use Rattle.sampler.specs.Inner.Fits.{NoneDueBefore, first_track, list_runs};
ghost use Rattle.sampler.specs.declared.track.Track.{Track};

use crate::counts::ListCounts;
use crate::opening::{PLACES, first_tracks};
use crate::track::{NEVER, Track};
use copy_plan::CopyPlan;
use xcp_base::limits::MAX_LISTS;
use xcp_base::{with_list, with_list_if};

/// The DAQ lists of an event channel: a plan of each, in rising list number, and at its place what
/// is kept of it.
#[derive(Drop)]
pub struct Lists {
    pub plans: Vec<CopyPlan>,
    pub tracks: [Track; PLACES],
}

impl Lists {
    /// The lists of some plans, which were never due; those in the set run.
    pub fn new(plans: Vec<CopyPlan>, running: u16) -> Lists
        requires { length plans.items ≤ MAX_LISTS }
        ensures plans { result.plans ≡ plans }
        ensures tracks { take (length plans.items) result.tracks
            ≡ map (λ (plan : ListPlan). first_track running plan.list) plans.items }
        ensures places { length result.tracks ≡ MAX_LISTS }
    {
        let tracks = first_tracks(plans.as_slice(), running);
        Lists { plans, tracks }
    }

    /// The place of a list.
    pub fn place_of(&self, l: u8) -> Option<usize>
        ensures { result ≡ place_of l self.now.plans.items }
    {
        self.plans
            .as_slice()
            .iter()
            .position(|plan| plan.list() == l)
    }

    /// The set of all lists.
    pub fn set(&self) -> u16
        ensures { IsSetOf result self.now.plans.items }
    {
        set_of(self.plans.as_slice())
    }

    /// The set of the lists that run.
    pub fn running(&self) -> u16
        requires rising { RiseFrom 0 self.now.plans.items }
        requires room { length self.now.plans.items ≤ length self.now.tracks }
        ensures { (k : ℕ) → has_list result k ≡ list_runs k self.now.plans.items
            (take (length self.now.plans.items) self.now.tracks) }
    {
        running_of(self.plans.as_slice(), &self.tracks)
    }

    /// A trigger before which no list is due, the last of these, as what is kept now has it.
    pub fn soonest(&self) -> u64
        requires room { length self.now.plans.items ≤ length self.now.tracks }
        ensures { NoneDueBefore result (take (length self.now.plans.items) self.now.tracks) }
    {
        soonest_of(&self.tracks[..self.plans.len()])
    }

    /// How often a list was due, and what became of its samples; `None` if it isn't there.
    pub fn counts(&self, l: u8) -> Option<ListCounts>
        requires room { length self.now.plans.items ≤ length self.now.tracks }
        ensures { result ≡ option_map (λ (track : Track). track.counts)
            (found_at l self.now.plans.items (take (length self.now.plans.items) self.now.tracks)) }
    {
        let place = self.place_of(l)?;
        Some(self.tracks[place].counts)
    }
}

/// The lists of some plans.
fn set_of(plans: &[CopyPlan]) -> u16
    ensures { IsSetOf result plans.now }
{
    let mut set = 0;
    for place in 0..plans.len() {
        set = with_list(set, plans[place].list());
    }
    set
}

/// Those of the lists of some plans that run.
fn running_of(plans: &[CopyPlan], tracks: &[Track]) -> u16
    requires rising { RiseFrom 0 plans.now }
    requires room { length plans.now ≤ length tracks.now }
    ensures { (k : ℕ) → has_list result k
        ≡ list_runs k plans.now (take (length plans.now) tracks.now) }
{
    let mut set = 0;
    for place in 0..plans.len() {
        set = with_list_if(set, plans[place].list(), tracks[place].running);
    }
    set
}

/// The soonest of the triggers at which lists are due next.
fn soonest_of(tracks: &[Track]) -> u64
    ensures { NoneDueBefore result tracks.now }
{
    let mut soonest = NEVER;
    for place in 0..tracks.len() {
        soonest = soonest.min(tracks[place].next);
    }
    soonest
}
