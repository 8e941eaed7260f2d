//! What a step asks of one sampler, and why it is refused, if it is.
ghost use Rattle.run_file.specs.Lent.{step_data};
ghost use Rattle.sampler.specs.Stays.{KeepsSetUp};
ghost use Rattle.daq_run.specs.Samplings.{AnswersStep};
ghost use Rattle.daq_run.specs.Steps.{run_step};

use crate::cause::Cause;
use channel_ring::{RingEnd, SendEnd};
use run_file::Step;
use sampler::Sampler;

/// Asks a sampler for what a step asks of an event channel, and returns why it was refused, if it
/// was. A pump step asks nothing.
pub fn ask<S: SendEnd>(sampler: &mut Sampler<S>, step: Step<'_>) -> Option<Cause>
    ensures answers { AnswersStep S.SendEnd S.End.RingEnd sampler.old sampler.new
        (run_step (step_data step.entry)) result }
    ensures set_up_stays { KeepsSetUp S.SendEnd sampler.old sampler.new }
{
    match step {
        Step::Trigger { stamp, image, .. } => match sampler.trigger(image, stamp) {
            Ok(_) => None,
            Err(fault) => Some(Cause::Trigger(fault)),
        },
        Step::Start { list, .. } => match sampler.start(list) {
            Ok(()) => None,
            Err(fault) => Some(Cause::Start(fault)),
        },
        Step::Stop { list, .. } => match sampler.stop(list) {
            Ok(()) => None,
            Err(fault) => Some(Cause::Stop(fault)),
        },
        Step::Pump => None,
    }
}
