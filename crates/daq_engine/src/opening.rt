//! Samplers and transmitter are opened over a store, with a ring for each event channel.
ghost use Rattle.std.specs.Prelude.{◌≡◌, ◌<◌, ◌≤◌, [], All, false, length, true, IfOk};
ghost use Rattle.std.specs.List.{list_all};
ghost use Rattle.copy_plan.specs.Config.{IsPlan};
ghost use Rattle.daq_store.specs.Limited.{is_by_value};
ghost use Rattle.sampler.specs.History.{Opening};
ghost use Rattle.sampler.specs.Limits.{AllKeepTo};
ghost use Rattle.frame_writer.specs.Writing.{state_of};
ghost use Rattle.transmitter.specs.Written.{next_of, transmission, writer_of};
ghost use Rattle.daq_engine.specs.Openings.{AnswersOpening, IsOpenedOver};
ghost use Rattle.daq_engine.specs.Openings.{channel_plans, fit_caps_of};
ghost use Rattle.daq_engine.specs.Openings.{is_byte_cap, is_cap, some_list_runs};
ghost use Rattle.daq_engine.specs.Opened.{AreOpenedTo, IsOpenedAt, IsSamplerAt};

use crate::channel_plans::{plans_of, running_of};
use crate::open_fault::OpenFault;
use crate::ring::Ring;
use byte_ring::{ByteLeft, ByteRing, ByteSend, ByteTake};
use channel_ring::{RingEnd, SampleRing, SendEnd, SendHalf, SendLeft, TakeEnd, TakeHalf};
use copy_plan::CopyPlan;
use daq_store::Store;
use frame_writer::{FrameWriter, Out};
use sampler::Sampler;
use std::alloc::{AllocError, Global};
use transmitter::Transmitter;
use xcp_base::ChannelId;
use xcp_base::limits::RUN_CHANNELS;

/// Opens an engine over a store: a sampler for each event channel, in rising order, and the
/// transmitter of their rings.
///
/// Each DAQ list that is ready is in the sampler of its event channel, and runs there where it runs
/// in the store. The ring of event channel `c` has `caps[c]` places, 1 to `MAX_SAMPLE_RING`; over a
/// store of more than 8 event channels, or one that isn't by value, no capacities fit.
/// Refused with `BadCaps`, `NothingRunning` or `Memory`, in this order; then the writer comes back
/// as it was.
pub fn open<O: Out>(
    alloc: Global,
    store: &Store,
    caps: &[usize],
    writer: FrameWriter<O>,
) -> Result<(Vec<Sampler<SendHalf>>, Transmitter<O, TakeHalf>), (OpenFault, FrameWriter<O>)>
    requires is_open { (state_of O.Out writer).closed ≡ false }

    ensures answers { AnswersOpening is_cap store.now caps.now writer result }
    ensures opened { IfOk result (λ engine. IsOpenedOver
        ⟦<SendHalf as SendEnd>⟧ ⟦<SendLeft as RingEnd>⟧ store.now caps.now
        (state_of O.Out writer) engine.0.items
        (transmission O.Out ⟦<TakeHalf as TakeEnd>⟧ engine.1)) }
    ensures writer { IfOk result (λ engine. writer_of engine.1 ≡ writer) }
    ensures next { IfOk result (λ engine. next_of engine.1 ≡ 0) }
{
    open_over::<SampleRing, O>(alloc, store, caps, writer)
}

/// `open` over rings of bytes: that of event channel `c` has `caps[c]` bytes, `MIN_BYTE_RING` to
/// `MAX_BYTE_RING`.
pub fn open_bytes<O: Out>(
    alloc: Global,
    store: &Store,
    caps: &[usize],
    writer: FrameWriter<O>,
) -> Result<(Vec<Sampler<ByteSend>>, Transmitter<O, ByteTake>), (OpenFault, FrameWriter<O>)>
    requires is_open { (state_of O.Out writer).closed ≡ false }

    ensures answers { AnswersOpening is_byte_cap store.now caps.now writer result }
    ensures opened { IfOk result (λ engine. IsOpenedOver
        ⟦<ByteSend as SendEnd>⟧ ⟦<ByteLeft as RingEnd>⟧ store.now caps.now
        (state_of O.Out writer) engine.0.items
        (transmission O.Out ⟦<ByteTake as TakeEnd>⟧ engine.1)) }
    ensures writer { IfOk result (λ engine. writer_of engine.1 ≡ writer) }
    ensures next { IfOk result (λ engine. next_of engine.1 ≡ 0) }
{
    open_over::<ByteRing, O>(alloc, store, caps, writer)
}

/// `open` over rings of one kind.
pub fn open_over<R: Ring, O: Out>(
    alloc: Global,
    store: &Store,
    caps: &[usize],
    writer: FrameWriter<O>,
) -> Result<(Vec<Sampler<R::Send>>, Transmitter<O, R::Take>), (OpenFault, FrameWriter<O>)>
    requires is_open { (state_of O.Out writer).closed ≡ false }

    ensures answers { AnswersOpening R.is_cap store.now caps.now writer result }
    ensures opened { IfOk result (λ engine. IsOpenedOver
        R.Send.SendEnd R.Send.End.RingEnd store.now caps.now
        (state_of O.Out writer) engine.0.items (transmission O.Out R.Take.TakeEnd engine.1)) }
    ensures writer { IfOk result (λ engine. writer_of engine.1 ≡ writer) }
    ensures next { IfOk result (λ engine. next_of engine.1 ≡ 0) }
{
    if !caps_fit::<R>(store, caps) {
        return Err((OpenFault::BadCaps, writer));
    }
    if !any_runs(store) {
        return Err((OpenFault::NothingRunning, writer));
    }
    match samplers_of::<R>(alloc, store, caps) {
        Ok((samplers, ends)) => Ok((samplers, Transmitter::new(writer, ends))),
        Err(_) => Err((OpenFault::Memory, writer)),
    }
}

/// Whether a ring may have each of these capacities.
fn are_caps<R: Ring>(caps: &[usize]) -> bool
    ensures { result ≡ list_all R.is_cap caps.now }
{
    caps.iter().all(|&cap| R::is_cap(cap))
}

/// Whether there is one capacity for each event channel, each within the ring's limits, and the
/// samples of the store find room in a value of fixed size.
fn caps_fit<R: Ring>(store: &Store, caps: &[usize]) -> bool
    ensures { result ≡ fit_caps_of R.is_cap store.now caps.now }
{
    if caps.len() != store.channels() as usize || caps.len() > RUN_CHANNELS as usize {
        return false;
    }
    store.is_by_value() && are_caps::<R>(caps)
}

/// Whether a DAQ list of the store runs.
fn any_runs(store: &Store) -> bool
    ensures { result ≡ some_list_runs store.now }
{
    (0..store.lists()).any(|l| store.running(l))
}

/// The sampler of one event channel of a store, over a send end through which nothing was sent, and
/// which takes the samples of these plans: those of the DAQ lists of the channel that are ready, as
/// `plans_of` returns them. Of these run those that run in the store.
pub fn sampler_over<S: SendEnd>(
    store: &Store,
    c: ChannelId,
    plans: Vec<CopyPlan>,
    end: S,
) -> Sampler<S>
    requires of_channel { plans.items ≡ channel_plans store.now c }
    requires plan { All IsPlan plans.items }
    requires keep { AllKeepTo (S.limit end) plans.items }
    requires nothing_sent { S.sent end ≡ [] }
    ensures sampler { (opening : Opening)
        × IsSamplerAt S.SendEnd S.End.RingEnd store.now c end result opening }
{
    let running = running_of(store, plans.as_slice());
    Sampler::over(c.byte(), plans, end, store.segments(), running)
}

/// The sampler of one event channel of a store whose samples find room in a value of fixed size,
/// and the take end of its ring, which has `cap` places.
pub fn open_channel<R: Ring>(
    alloc: Global,
    store: &Store,
    c: ChannelId,
    cap: usize,
) -> Result<(Sampler<R::Send>, R::Take), AllocError>
    requires by_value { is_by_value store.now.profile ≡ true }
    ensures opened { IfOk result (λ r. (opening : Opening)
        × IsOpenedAt R.Send.SendEnd R.Send.End.RingEnd R.Take.TakeEnd
        store.now c cap r.0 r.1 opening) }
{
    let plans = plans_of(alloc, store, c)?;
    let Ok((send, take)) = R::make(alloc, cap) else {
        return Err(AllocError);
    };
    Ok((sampler_over(store, c, plans, send), take))
}

/// The samplers of all event channels of the store, and the take ends of their rings.
fn samplers_of<R: Ring>(
    alloc: Global,
    store: &Store,
    caps: &[usize],
) -> Result<(Vec<Sampler<R::Send>>, Vec<R::Take>), AllocError>
    requires caps { length caps.now ≡ store.now.profile.channels }
    requires by_value { is_by_value store.now.profile ≡ true }
    ensures opened { IfOk result (λ r.
        AreOpenedTo R.Send.SendEnd R.Send.End.RingEnd R.Take.TakeEnd
        store.now caps.now r.0.items r.1.items) }
    ensures some { 1 ≤ store.now.profile.channels }
{
    let channels = store.channels();
    let mut samplers = Vec::with_capacity(alloc, channels as usize)?;
    let mut ends = Vec::with_capacity(alloc, channels as usize)?;
    for c in 0..channels {
        let id = ChannelId::at(c as usize);
        let (sampler, take) = open_channel::<R>(alloc, store, id, caps[id.index()])?;
        samplers.push_reserved(sampler);
        ends.push_reserved(take);
    }
    Ok((samplers, ends))
}
