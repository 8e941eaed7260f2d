//! Which DAQ lists were due at a trigger, and whose samples were accepted or dropped.
ghost use Rattle.sampler.specs.Inner.AtTrigger.{Adds, row_of};
ghost use Rattle.sampler.specs.declared.track.Track.{Track};

use copy_plan::CopyPlan;
use xcp_base::with_list;

/// What a trigger did, as sets of DAQ lists in which bit `l` stands for list `l`.
#[derive(Clone, Copy, Debug, PartialEq, Eq)]
pub struct Taken {
    /// The lists that were due.
    pub due: u16,
    /// Those whose sample was accepted.
    pub accepted: u16,
    /// Those whose sample was dropped.
    pub dropped: u16,
}

/// No list was due.
pub(crate) const NONE_TAKEN: Taken = Taken {
    due: 0,
    accepted: 0,
    dropped: 0,
};

impl Taken {
    /// Adds a list, if it was due.
    pub(crate) fn add(&mut self, plan: &CopyPlan, due: bool, accepted: bool)
        ensures { (track : Track) → Adds self.old self.new (row_of plan.now track due accepted) }
    {
        if !due {
            return;
        }
        let list = plan.list();
        self.due = with_list(self.due, list);
        if accepted {
            self.accepted = with_list(self.accepted, list);
        } else {
            self.dropped = with_list(self.dropped, list);
        }
    }
}
