//! What the thread of one event channel does.
ghost use Rattle.std.specs.Prelude.{◌≡◌, ◌≤◌, map};
ghost use Rattle.run_file.specs.Lent.{step_data};
ghost use Rattle.run_file.specs.declared.limits.TheConstants.{MAX_STEPS};
ghost use Rattle.sampler.specs.Stays.{KeepsSetUp};
ghost use Rattle.daq_run.specs.Samplings.{HasAnsweredMore};
ghost use Rattle.daq_run.specs.Steps.{asked_at, asked_of, run_step};
ghost use Rattle.daq_run.specs.Inner.Workers.{HasWorked, is_of};

use crate::ask;
use crate::gate::Gate;
use channel_ring::{RingEnd, SendEnd};
use run_file::{Run, Step};
use sampler::{Sampler, SamplerEnd};
use std::snapshot::Snapshot;
use std::sync::atomic::{AtomicBool, Ordering};
use std::thread::Promise;

/// What came of the steps of one event channel.
#[derive(Drop)]
pub struct Worked<E> {
    /// What is left of the sampler, if its ring's `finish` gave anything.
    pub end: Option<SamplerEnd<E>>,
    /// How many of the steps were refused.
    pub refused: u64,
    ghost few: { refused ≤ MAX_STEPS },
}

/// The promise of a thread: the sampler does those steps of a run that are of its event channel,
/// and is finished.
#[derive(Drop)]
pub struct WillWork<'a, S: SendEnd> {
    pub sampler: Snapshot<Sampler<S>>,
    pub run: &'a Run,
}

impl<'a, S: SendEnd> Promise<Worked<S::End>> for WillWork<'a, S> {
    ghost kept_by = { λ p r. HasWorked S.SendEnd S.End.RingEnd
        p.sampler.value (map run_step p.run.now.steps) r.end r.refused };
}

/// Does the steps of a sampler's event channel, finishes the sampler, and says so.
pub fn work<S: SendEnd, G: Gate>(
    mut sampler: Sampler<S>,
    run: &Run,
    gate: &G,
    ended: &AtomicBool,
) -> Worked<S::End>
    ensures { HasWorked S.SendEnd S.End.RingEnd
        sampler (map run_step run.now.steps) result.end result.refused }
{
    let refused = do_own(&mut sampler, run, gate);
    let end = sampler.finish();
    ended.store(true, Ordering::SeqCst);
    Worked { end, refused }
}

/// Does those steps of a run that are of a sampler's event channel, in order, and returns how many
/// were refused.
fn do_own<S: SendEnd, G: Gate>(sampler: &mut Sampler<S>, run: &Run, gate: &G) -> u64
    ensures does { HasAnsweredMore S.SendEnd S.End.RingEnd sampler.old sampler.new
        (asked_of sampler.old.channel (map run_step run.now.steps)) result }
    ensures few { result ≤ MAX_STEPS }
    ensures set_up_stays { KeepsSetUp S.SendEnd sampler.old sampler.new }
{
    let mut place = 0;
    let mut refused = 0;
    for i in 0..run.steps() {
        let Some(step) = run.step(i) else {
            unreachable!()
        };
        let (own, more) = do_if_own(sampler, step, gate, place);
        place += own;
        refused += more;
    }
    refused
}

/// Does a step, if it is of the sampler's event channel. Answers how many were, none or one, and
/// how many of these were refused.
fn do_if_own<S: SendEnd, G: Gate>(
    sampler: &mut Sampler<S>,
    step: Step<'_>,
    gate: &G,
    place: usize,
) -> (usize, u64)
    ensures does { HasAnsweredMore S.SendEnd S.End.RingEnd sampler.old sampler.new
        (asked_at sampler.old.channel (run_step (step_data step.entry))) result.1 }
    ensures own { result.0 ≤ 1 }
    ensures few { result.1 ≤ 1 }
    ensures set_up_stays { KeepsSetUp S.SendEnd sampler.old sampler.new }
{
    let c = sampler.channel();
    if !is_of(c, step) {
        return (0, 0);
    }
    gate.before(c, place);
    let refusal = ask(sampler, step);
    gate.answered(c, place);
    match refusal {
        Some(_) => (1, 1),
        None => (1, 0),
    }
}

/// Whether a step is of event channel `c`.
fn is_of(c: u8, step: Step<'_>) -> bool
    ensures { result ≡ is_of c (run_step (step_data step.entry)) }
{
    match step {
        Step::Trigger { channel, .. } => c == channel,
        Step::Start { channel, .. } => c == channel,
        Step::Stop { channel, .. } => c == channel,
        Step::Pump => false,
    }
}
