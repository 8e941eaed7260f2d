//! A whole run with a thread for each event channel.
ghost use Rattle.std.specs.Prelude.{◌≡◌, ◌≤◌, ◌<◌, ◌+◌, ◌++◌, ◌∷◌, [], All, IfErr, IfOk, IfSome};
ghost use Rattle.std.specs.Prelude.{OnOk, map, true};
ghost use Rattle.std.specs.Prelude.{vec_capacity, vec_len};
ghost use Rattle.xcp_base.specs.declared.limits.TheConstants.{RUN_CHANNELS};
ghost use Rattle.std.specs.List.{list_all};
ghost use Rattle.frame_writer.specs.Shown.{shown};
ghost use Rattle.run_file.specs.RunFile.{RunData};
ghost use Rattle.run_file.specs.declared.limits.TheConstants.{MAX_STEPS};
ghost use Rattle.transmitter.specs.Written.{transmission};
ghost use Rattle.daq_run.specs.Steps.{run_step};
ghost use Rattle.daq_run.specs.Inner.Workers.{HaveWorked, IsLeftAfterSteps, IsOneMoreLeft};
ghost use Rattle.daq_run.specs.Inner.Workers.{KeepsTaking, MayComeLate};
ghost use Rattle.daq_run.specs.Runs.{cost_in};
ghost use Rattle.daq_run.specs.Threads.{ThreadsComeTo, ThreadsStandAtFault};

use crate::gate::Gate;
use crate::meanwhile::{Flags, Meanwhile, Pumping, take_back};
use crate::outcome::Outcome;
use crate::setting_up::opened;
use crate::sim_fault::SimFault;
use crate::worker::{WillWork, Worked, work};
use byte_ring::ByteRing;
use channel_ring::{ItemTake, RingEnd, SampleRing, SendEnd, TakeEnd};
use daq_engine::{CloseFault, Ring, drain_and_close};
use frame_writer::Out;
use run_file::Run;
use sampler::{Sampler, SamplerEnd};
use std::alloc::{AllocError, Global};
use std::snapshot::Snapshot;
use std::sync::Wait;
use std::sync::atomic::AtomicBool;
use std::thread::{self, PromisedHandle, Scope, Threads};
use transmitter::Transmitter;
use xcp_base::RingKind;

/// A thread of a sampler.
type Worker<'a, S> = PromisedHandle<Worked<<S as SendEnd>::End>, WillWork<'a, S>>;

/// Carries out a run with one thread for each event channel, which does that channel's steps in
/// order; pump steps are passed over. The transmitter pumps in the caller's thread until each
/// sampler was finished in its own. Then come a drain, if the run says so, and the account. It
/// may wait.
///
/// The steps go on if the writer fails; the report says that it failed. Refused with `Memory`,
/// `NothingRunning` if after the set-up no DAQ list runs, `SetupWrite` if a reply isn't
/// written whole, `EndLost`, or `NoThread` if a thread can't be had; then those that run are
/// joined first. The writer comes back with what was written until then.
pub fn run_threads<R: Threads + Wait + Sync, O: Out, G: Gate + Sync>(
    rt: &R,
    alloc: Global,
    run: &Run,
    out: O,
    gate: &G,
) -> Result<Outcome<O>, (SimFault, O)>
    ensures ok { IfOk result (λ outcome. ThreadsComeTo run.now (shown O.Out out)
        outcome.refused outcome.report (shown O.Out outcome.out)) }
    ensures fault { IfErr result (λ e. ThreadsStandAtFault run.now (shown O.Out out)
        (shown O.Out e.1) e.0) }
{
    match run.ring() {
        RingKind::Samples => threads_over::<R, SampleRing, O, G>(rt, alloc, run, out, gate),
        RingKind::Bytes => threads_over::<R, ByteRing, O, G>(rt, alloc, run, out, gate),
    }
}

/// The same over rings of one kind.
fn threads_over<R: Threads + Wait + Sync, K: Ring, O: Out, G: Gate + Sync>(
    rt: &R,
    alloc: Global,
    run: &Run,
    out: O,
    gate: &G,
) -> Result<Outcome<O>, (SimFault, O)>
where
    K::Send: Send,
    <K::Send as SendEnd>::End: Send,
    requires caps { list_all K.is_cap run.now.caps ≡ true }
    requires cost { K.Send.End.cost ≡ cost_in run.now.ring }
    ensures ok { IfOk result (λ outcome. ThreadsComeTo run.now (shown O.Out out)
        outcome.refused outcome.report (shown O.Out outcome.out)) }
    ensures fault { IfErr result (λ e. ThreadsStandAtFault run.now (shown O.Out out)
        (shown O.Out e.1) e.0) }
{
    let engine = opened::<K, O>(alloc, run, out)?;
    let (samplers, mut transmitter) = engine.into_parts();
    let (ends, refused) = match work_and_pump(rt, alloc, samplers, &mut transmitter, run, gate) {
        Ok(worked) => worked,
        Err(fault) => return Err((fault, transmitter.into_writer().into_out())),
    };
    match drain_and_close(alloc, transmitter, ends, run.drain()) {
        Ok((report, out)) => Ok(Outcome {
            refused,
            report,
            out,
        }),
        Err((CloseFault::Memory, transmitter, _ends)) => {
            Err((SimFault::Memory, transmitter.into_writer().into_out()))
        }
        Err((CloseFault::WrongEnds, _transmitter, _ends)) => unreachable!(),
    }
}

/// Runs each sampler in a thread of its own, and pumps in the caller's until each was finished:
/// what is left of the samplers, in their order, and how many of their steps were refused.
fn work_and_pump<R: Threads + Wait + Sync, S: SendEnd + Send, O: Out, T: ItemTake, G: Gate + Sync>(
    rt: &R,
    alloc: Global,
    samplers: Vec<Sampler<S>>,
    transmitter: &mut Transmitter<O, T>,
    run: &Run,
    gate: &G,
) -> Result<(Vec<SamplerEnd<S::End>>, u64), SimFault>
where
    S::End: Send,
    requires few { vec_len samplers ≤ RUN_CHANNELS }
    ensures worked { IfOk result (λ r. HaveWorked S.SendEnd S.End.RingEnd
        samplers.items (map run_step run.now.steps) r.0.items r.1) }
    ensures late { IfErr result MayComeLate }
    ensures takes { KeepsTaking (transmission O.Out T.TakeEnd transmitter.old)
        (transmission O.Out T.TakeEnd transmitter.new) }
{
    let ended = no_flags();
    let pumping = Pumping {
        rt,
        transmitter: &mut *transmitter,
        gate,
        ended: &ended,
    };
    let (worked, lent) = work_beside(rt, alloc, samplers, run, gate, &ended, pumping);
    // for the proof: what came back is what was lent, so the transmitter is that of now
    take_back(lent);
    worked
}

/// No thread has ended.
fn no_flags() -> Flags {
    [
        AtomicBool::new(false),
        AtomicBool::new(false),
        AtomicBool::new(false),
        AtomicBool::new(false),
        AtomicBool::new(false),
        AtomicBool::new(false),
        AtomicBool::new(false),
        AtomicBool::new(false),
    ]
}

/// Runs each sampler in a thread of its own, and `meanwhile` in the caller's: what is left of the
/// samplers, in their order, and how many of their steps were refused.
fn work_beside<
    'e,
    R: Threads + Wait + Sync,
    S: SendEnd + Send + 'e,
    G: Gate + Sync + 'e,
    M: Meanwhile + Drop,
>(
    rt: &'e R,
    alloc: Global,
    samplers: Vec<Sampler<S>>,
    run: &'e Run,
    gate: &'e G,
    ended: &'e Flags,
    meanwhile: M,
) -> (Result<(Vec<SamplerEnd<S::End>>, u64), SimFault>, M::Output)
where
    S::End: Send + 'e,
    requires few { vec_len samplers ≤ RUN_CHANNELS }
    ensures worked { IfOk result.0 (λ r. HaveWorked S.SendEnd S.End.RingEnd
        samplers.items (map run_step run.now.steps) r.0.items r.1) }
    ensures late { IfErr result.0 MayComeLate }
    ensures meanwhile { M.gives meanwhile result.1 }
{
    thread::scope(
        thread::scope_env(),
        rt,
        |scope| -> (Result<(Vec<SamplerEnd<S::End>>, u64), SimFault>, M::Output)
            requires { vec_len samplers ≤ RUN_CHANNELS }
            ensures worked { IfOk result.0 (λ r. HaveWorked S.SendEnd S.End.RingEnd
                samplers.items (map run_step run.entry.now.steps) r.0.items r.1) }
            ensures late { IfErr result.0 MayComeLate }
            ensures meanwhile { M.gives meanwhile result.1 }
        { in_scope(rt, alloc, scope, samplers, run, gate, ended, meanwhile) },
    )
}

/// The same in a scope of threads.
fn in_scope<'s, 'e, R: Threads, S: SendEnd + Send + 'e, G: Gate + Sync + 'e, M: Meanwhile>(
    rt: &R,
    alloc: Global,
    scope: &'s Scope<'s, &'e ()>,
    samplers: Vec<Sampler<S>>,
    run: &'e Run,
    gate: &'e G,
    ended: &'e Flags,
    meanwhile: M,
) -> (Result<(Vec<SamplerEnd<S::End>>, u64), SimFault>, M::Output)
where
    S::End: Send + 'e,
    requires few { vec_len samplers ≤ RUN_CHANNELS }
    ensures worked { IfOk result.0 (λ r. HaveWorked S.SendEnd S.End.RingEnd
        samplers.items (map run_step run.now.steps) r.0.items r.1) }
    ensures late { IfErr result.0 MayComeLate }
    ensures meanwhile { M.gives meanwhile result.1 }
{
    let Ok((mut workers, ends)) = room_for(alloc, samplers.len()) else {
        return (Err(SimFault::Memory), meanwhile.run(0));
    };
    let all = start_all(scope, samplers, &mut workers, run, gate, ended);
    let done = meanwhile.run(workers.len());
    let joined = join_all(rt, workers, ends);
    if !all {
        return (Err(SimFault::NoThread), done);
    }
    (joined, done)
}

/// Room for so many threads, and for what is left of their samplers.
fn room_for<'e, S: SendEnd>(
    alloc: Global,
    len: usize,
) -> Result<(Vec<Worker<'e, S>>, Vec<SamplerEnd<S::End>>), AllocError>
    ensures workers { IfOk result (λ r. (vec_len r.0 ≡ 0) × (len ≤ vec_capacity r.0)) }
    ensures ends { IfOk result (λ r. (vec_len r.1 ≡ 0) × (len ≤ vec_capacity r.1)) }
{
    let workers = Vec::with_capacity(alloc, len)?;
    let ends = Vec::with_capacity(alloc, len)?;
    Ok((workers, ends))
}

/// Starts a thread for each of the samplers, up to the first for which none can be had, and tells
/// whether all were started.
fn start_all<'s, 'e, S: SendEnd + Send + 'e, G: Gate + Sync + 'e>(
    scope: &'s Scope<'s, &'e ()>,
    samplers: Vec<Sampler<S>>,
    workers: &mut Vec<Worker<'e, S>>,
    run: &'e Run,
    gate: &'e G,
    ended: &'e Flags,
) -> bool
where
    S::End: Send + 'e,
    requires few { vec_len samplers ≤ RUN_CHANNELS }
    requires empty { vec_len workers.old ≡ 0 }
    requires enough { vec_len samplers ≤ vec_capacity workers.old }
    ensures of_samplers { result ≡ true
        → map (λ h. h.promise.sampler.value) workers.new.items ≡ samplers.items }
    ensures of_run { All (λ h. h.promise.run.now ≡ run.now) workers.new.items }
    ensures few { vec_len workers.new ≤ vec_len samplers }
{
    for sampler in samplers {
        if !start_next(scope, sampler, workers, run, gate, ended) {
            return false;
        }
    }
    true
}

/// Starts the thread of the next sampler, and tells whether one could be had.
fn start_next<'s, 'e, S: SendEnd + Send + 'e, G: Gate + Sync + 'e>(
    scope: &'s Scope<'s, &'e ()>,
    sampler: Sampler<S>,
    workers: &mut Vec<Worker<'e, S>>,
    run: &'e Run,
    gate: &'e G,
    ended: &'e Flags,
) -> bool
where
    S::End: Send + 'e,
    requires few { vec_len workers.old < RUN_CHANNELS }
    requires room { vec_len workers.old < vec_capacity workers.old }
    ensures of_sampler { result ≡ true → map (λ h. h.promise.sampler.value) workers.new.items
        ≡ map (λ h. h.promise.sampler.value) workers.old.items ++ sampler ∷ [] }
    ensures of_run { All (λ h. h.promise.run.now ≡ run.now) workers.old.items
        → All (λ h. h.promise.run.now ≡ run.now) workers.new.items }
    ensures len { vec_len workers.new ≤ vec_len workers.old + 1 }
    ensures more { result ≡ true → vec_len workers.new ≡ vec_len workers.old + 1 }
    ensures room { vec_capacity workers.new ≡ vec_capacity workers.old }
{
    let flag = &ended[workers.len()];
    let Some(worker) = start_worker(scope, sampler, run, gate, flag) else {
        return false;
    };
    workers.push_reserved(worker);
    true
}

/// Starts the thread of a sampler, if one can be had.
fn start_worker<'s, 'e, S: SendEnd + Send + 'e, G: Gate + Sync + 'e>(
    scope: &'s Scope<'s, &'e ()>,
    sampler: Sampler<S>,
    run: &'e Run,
    gate: &'e G,
    flag: &'e AtomicBool,
) -> Option<Worker<'e, S>>
where
    S::End: Send + 'e,
    ensures of_sampler { IfSome result (λ h. h.promise.sampler.value ≡ sampler) }
    ensures of_run { IfSome result (λ h. h.promise.run.now ≡ run.now) }
{
    let promise = WillWork {
        sampler: Snapshot::of(&sampler),
        run,
    };
    match scope.spawn_with(promise, move || work(sampler, run, gate, flag)) {
        Ok(worker) => Some(worker),
        Err(_) => None,
    }
}

/// Joins the threads: what is left of the samplers, in the order of the threads and in the room
/// that was made for it, and how many of their steps were refused. The scope waits for a thread
/// that isn't joined.
fn join_all<'e, R: Threads, S: SendEnd>(
    rt: &R,
    workers: Vec<Worker<'e, S>>,
    room: Vec<SamplerEnd<S::End>>,
) -> Result<(Vec<SamplerEnd<S::End>>, u64), SimFault>
    requires few { vec_len workers ≤ RUN_CHANNELS }
    requires empty { vec_len room ≡ 0 }
    requires enough { vec_len workers ≤ vec_capacity room }
    ensures worked { IfOk result (λ r. (run : RunData)
        → All (λ h. h.promise.run.now ≡ run) workers.entry.items
        → HaveWorked S.SendEnd S.End.RingEnd
        (map (λ h. h.promise.sampler.value) workers.entry.items) (map run_step run.steps)
        r.0.items r.1) }
    ensures late { IfErr result MayComeLate }
{
    let mut ends = room;
    let refused = join_each(rt, workers, &mut ends)?;
    Ok((ends, refused))
}

/// Joins the threads, appends what is left of each sampler, and tells how many of their steps were
/// refused.
fn join_each<'e, R: Threads, S: SendEnd>(
    rt: &R,
    workers: Vec<Worker<'e, S>>,
    ends: &mut Vec<SamplerEnd<S::End>>,
) -> Result<u64, SimFault>
    requires few { vec_len workers ≤ RUN_CHANNELS }
    requires empty { vec_len ends.old ≡ 0 }
    requires enough { vec_len workers ≤ vec_capacity ends.old }
    ensures worked { IfOk result (λ refused. (run : RunData)
        → All (λ h. h.promise.run.now ≡ run) workers.entry.items
        → HaveWorked S.SendEnd S.End.RingEnd
        (map (λ h. h.promise.sampler.value) workers.entry.items) (map run_step run.steps)
        ends.new.items refused) }
    ensures late { IfErr result MayComeLate }
{
    let mut refused = 0;
    for worker in workers {
        let more = join_next(rt, worker, ends)?;
        refused += more;
    }
    Ok(refused)
}

/// Joins the thread of the next sampler, appends what is left of that, and tells how many of its
/// steps were refused.
fn join_next<'e, R: Threads, S: SendEnd>(
    rt: &R,
    worker: Worker<'e, S>,
    ends: &mut Vec<SamplerEnd<S::End>>,
) -> Result<u64, SimFault>
    requires room { vec_len ends.old < vec_capacity ends.old }
    ensures left { IfOk result (λ refused. IsOneMoreLeft S.SendEnd S.End.RingEnd
        worker.entry.promise.sampler.value (map run_step worker.entry.promise.run.now.steps)
        ends.old.items ends.new.items refused) }
    ensures few { IfOk result (λ refused. refused ≤ MAX_STEPS) }
    ensures late { IfErr result MayComeLate }
    ensures len { OnOk result (vec_len ends.new ≡ vec_len ends.old + 1) }
    ensures room { OnOk result (vec_capacity ends.new ≡ vec_capacity ends.old) }
{
    let Some((end, refused)) = join_worker(rt, worker) else {
        return Err(SimFault::EndLost);
    };
    ends.push_reserved(end);
    Ok(refused)
}

/// Joins the thread of a sampler: what is left of that, if anything, and how many of its steps
/// were refused.
fn join_worker<'e, R: Threads, S: SendEnd>(
    rt: &R,
    worker: Worker<'e, S>,
) -> Option<(SamplerEnd<S::End>, u64)>
    ensures left { IfSome result (λ r. IsLeftAfterSteps S.SendEnd S.End.RingEnd
        worker.entry.promise.sampler.value (map run_step worker.entry.promise.run.now.steps)
        r.0 r.1) }
    ensures few { IfSome result (λ r. r.1 ≤ MAX_STEPS) }
{
    let Worked { end, refused } = worker.join(rt);
    Some((end?, refused))
}
