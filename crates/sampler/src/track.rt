//! What is kept of a DAQ list between triggers: when it is due next, and its overload.
ghost use Rattle.std.specs.Prelude.{◌≡◌, ◌+◌, ◌≤◌, true, false};
ghost use Rattle.xcp_base.specs.declared.limits.TheConstants.{MAX_TRIGGERS};
ghost use Rattle.sampler.specs.Inner.AtTrigger.{due_now, triggered};

use crate::counts::ListCounts;
use copy_plan::CopyPlan;

/// The trigger at which a list that does not run is due next: there is none.
pub const NEVER: u64 = 0xFFFF_FFFF_FFFF_FFFF;

/// What is kept of a list that was never due and does not run.
pub const FIRST_TRACK: Track = Track {
    running: false,
    next: NEVER,
    pending: false,
    counts: ListCounts {
        due: 0,
        accepted: 0,
        dropped: 0,
    },
};

/// What a sampler keeps of one list from trigger to trigger.
#[derive(Clone, Copy)]
pub struct Track {
    /// The list runs.
    pub running: bool,
    /// The trigger at which it is due next, counted from 0; `NEVER` if it does not run.
    pub next: u64,
    /// Its last due sample was dropped, so its next one carries the overload indication.
    pub pending: bool,
    /// How often it was due so far, and what became of its samples.
    pub counts: ListCounts,
}

impl Track {
    /// The same, started when so many triggers were accepted: the list is due at the next one.
    pub fn started(self, triggers: u64) -> Track
        ensures { result ≡ record self { running = true; next = triggers } }
    {
        Track {
            running: true,
            next: triggers,
            ..self
        }
    }

    /// The same, stopped. Whether its last due sample was dropped stays.
    pub fn stopped(self) -> Track
        ensures { result ≡ record self { running = false; next = NEVER } }
    {
        Track {
            running: false,
            next: NEVER,
            ..self
        }
    }

    /// The list is due at a trigger of this number.
    pub fn is_due(&self, trigger: u64) -> bool
        ensures { result ≡ due_now trigger self.now }
    {
        self.running && self.next == trigger
    }

    /// Notes a trigger, at which the list was due or not, and a sample of it was accepted or not.
    #[tactic(auto, unfolding(crate::specs::Inner::AtTrigger::triggered))]
    pub fn note(&mut self, plan: &CopyPlan, due: bool, accepted: bool)
        requires next { due ≡ true → self.old.next ≤ MAX_TRIGGERS }
        requires counts { self.old.counts.due ≤ MAX_TRIGGERS }
        requires sum { self.old.counts.accepted + self.old.counts.dropped ≡ self.old.counts.due }
        ensures { self.new ≡ triggered plan.now self.old due accepted }
    {
        if !due {
            return;
        }
        self.next += plan.prescaler() as u64;
        self.pending = !accepted;
        self.counts.due += 1;
        if accepted {
            self.counts.accepted += 1;
        } else {
            self.counts.dropped += 1;
        }
    }
}
