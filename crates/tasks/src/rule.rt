//! The lines between slave and tasks, and the rule for what comes back over them.
use crate::handed::Handed;
use crate::lost::Lost;
use channel_ring::{ControlTake, SendEnd};
use hand_over::{Borrower, Lender, Rule};
use sampler::SamplerEnd;

/// What comes back: what is left of the sampler, and the task's end of its orders.
pub type Left<S> = (Result<SamplerEnd<<S as SendEnd>::End>, Lost>, ControlTake);

/// The task's end of its line with the slave.
pub type TaskLine<S> = Borrower<Handed<S>, Left<S>, AfterDeeds>;

/// The slave's end of it.
pub type SlaveLine<S> = Lender<Handed<S>, Left<S>, AfterDeeds>;

/// What is left of a sampler, with the task's end of its orders, stands after what the sampler
/// stood after and after what was done since.
#[derive(Clone, Copy)]
pub struct AfterDeeds;

impl<S: SendEnd> Rule<Handed<S>, Left<S>> for AfterDeeds {
    ghost use Rattle.tasks.specs.Ways.{LeavesBy};

    ghost leaves = { λ went left. LeavesBy S.SendEnd S.End.RingEnd
        went.sampler went.orders left };
}
