//! The opening of an engine, and its samplers.

ghost use Rattle.std.specs.Prelude.{◌≡◌, ◌≤◌, [], IfErr, IfOk, None, Some, false, length, map};
ghost use Rattle.std.specs.Prelude.{vec_capacity, vec_len};
ghost use Rattle.xcp_base.specs.declared.limits.TheConstants.{MAX_LISTS as MOST_LISTS};
ghost use Rattle.transmitter.specs.Sinks.{sink_transmitter};
ghost use Rattle.daq_engine.specs.Configuration.{upto};
ghost use Rattle.c_engine.specs.Engines.{IsOpened, IsRefused, OpensAs, OpensEngine, OpensOn};
ghost use Rattle.c_engine.specs.Kinds.{ring_of};
ghost use Rattle.c_engine.specs.Lendings.{WasOpened};
ghost use Rattle.c_engine.specs.States.{samplers_in};

use crate::content::Content;
use crate::handle::Handle;
use crate::held_engine::HeldEngine;
use crate::held_ring::HeldRing;
use crate::kinds::ring_numbered;
use crate::lending::Lending;
use crate::status::Status;
use byte_ring::ByteRing;
use channel_ring::{SampleRing, SendEnd, TakeEnd};
use daq_engine::{ListReport, OpenFault, Ring, open_over};
use daq_store::Store;
use frame_writer::{FrameWriter, Out, SinkOut};
use sampler::Sampler;
use std::alloc::{AllocError, Global};
use transmitter::Transmitter;
use xcp_base::RingKind;
use xcp_base::limits::MAX_LISTS;

/// Room for the ways and the ends of so many samplers, and for the lines of a report.
fn room_for<W: Drop, E: Drop>(
    alloc: Global,
    samplers: usize,
) -> Result<(Vec<W>, Vec<E>, Vec<ListReport>), AllocError>
    ensures ways { IfOk result (λ it. (it.0.items ≡ []) × (vec_len it.0 ≡ 0)
        × (vec_capacity it.0 ≡ samplers)) }
    ensures ends { IfOk result (λ it. (it.1.items ≡ []) × (vec_len it.1 ≡ 0)
        × (vec_capacity it.1 ≡ samplers)) }
    ensures lines { IfOk result (λ it. (vec_len it.2 ≡ 0)
        × (MOST_LISTS ≤ vec_capacity it.2)) }
{
    let ways = Vec::with_capacity(alloc, samplers)?;
    let ends = Vec::with_capacity(alloc, samplers)?;
    let lines = Vec::with_capacity(alloc, MAX_LISTS as usize)?;
    Ok((ways, ends, lines))
}

/// An engine of what was opened.
fn engine_of<R: Ring>(
    alloc: Global,
    samplers: Vec<Sampler<R::Send>>,
    transmitter: Transmitter<SinkOut, R::Take>,
) -> Result<HeldEngine<R>, AllocError>
    requires rings { (sink_transmitter R.Take.TakeEnd transmitter).rings
        ≡ map (λ s. R.Send.ring s.end) samplers.items }
    requires is_open { (sink_transmitter R.Take.TakeEnd transmitter).writer.closed
        ≡ false }
    requires in_order { map (λ s. s.channel) samplers.items ≡ upto 0 (length samplers.items) }
    requires opened { WasOpened R.Send.SendEnd R.Send.End.RingEnd samplers.items
        (sink_transmitter R.Take.TakeEnd transmitter) }
    ensures { IfOk result (λ engine. (engine.transmitter ≡ transmitter)
        × (samplers_in engine ≡ samplers.items) × (engine.lending.began ≡ samplers.items)) }
{
    let (ways, ends, lines) = room_for(alloc, samplers.len())?;
    let lending = Lending::over(samplers, ways, ends);
    Ok(HeldEngine {
        transmitter,
        lending,
        lines,
    })
}

/// Opens an engine over a store.
pub fn opened<R: Ring>(
    alloc: Global,
    store: &Store,
    caps: &[usize],
) -> Result<HeldEngine<R>, Status>
    ensures ok { IfOk result (λ engine. IsOpened ⟦<SinkOut as Out>⟧ R.Take.TakeEnd
        R.Send.SendEnd R.Send.End.RingEnd R.is_cap store.now caps.now engine) }
    ensures err { IfErr result (λ status. IsRefused R.is_cap store.now caps.now status) }
{
    let writer = FrameWriter::new(SinkOut::new());
    match open_over::<R, SinkOut>(alloc, store, caps, writer) {
        Ok((samplers, transmitter)) => match engine_of(alloc, samplers, transmitter) {
            Ok(engine) => Ok(engine),
            Err(_) => Err(Status::Memory),
        },
        Err((OpenFault::BadCaps, _)) => Err(Status::BadCaps),
        Err((OpenFault::NothingRunning, _)) => Err(Status::NothingRunning),
        Err((OpenFault::Memory, _)) => Err(Status::Memory),
    }
}

/// Opens an engine over a store and over rings of one kind, as a handle holds it.
fn opened_as(
    alloc: Global,
    store: &Store,
    kind: RingKind,
    caps: &[usize],
) -> Result<Content, Status>
    ensures ok { IfOk result (λ it.
        OpensAs ⟦<SampleRing as HeldRing>⟧.rings ⟦<ByteRing as HeldRing>⟧.rings
        (Some kind) store.now caps.now (Some it) Status.Ok) }
    ensures err { IfErr result (λ status.
        OpensAs ⟦<SampleRing as HeldRing>⟧.rings ⟦<ByteRing as HeldRing>⟧.rings
        (Some kind) store.now caps.now None status) }
    ensures no_memory { OpensAs ⟦<SampleRing as HeldRing>⟧.rings ⟦<ByteRing as HeldRing>⟧.rings
        (Some kind) store.now caps.now None Status.Memory }
{
    match kind {
        RingKind::Samples => {
            let engine = opened::<SampleRing>(alloc, store, caps)?;
            Ok(Content::Engine(engine))
        }
        RingKind::Bytes => {
            let engine = opened::<ByteRing>(alloc, store, caps)?;
            Ok(Content::ByteEngine(engine))
        }
    }
}

/// Opens an engine over a store, on the heap.
fn opened_on_heap(
    alloc: Global,
    store: &Store,
    ring: u32,
    caps: &[usize],
) -> Result<Box<Content>, Status>
    ensures ok { IfOk result (λ it.
        OpensAs ⟦<SampleRing as HeldRing>⟧.rings ⟦<ByteRing as HeldRing>⟧.rings
        (ring_of ring) store.now caps.now (Some it.value) Status.Ok) }
    ensures err { IfErr result (λ status.
        OpensAs ⟦<SampleRing as HeldRing>⟧.rings ⟦<ByteRing as HeldRing>⟧.rings
        (ring_of ring) store.now caps.now None status) }
{
    let Some(kind) = ring_numbered(ring) else {
        return Err(Status::BadLimits);
    };
    opened_as(alloc, store, kind, caps)?.boxed(alloc)
}

/// Opens an engine over what is held, if it is a store.
fn opened_on(
    alloc: Global,
    content: &Content,
    ring: u32,
    caps: &[usize],
) -> Result<Box<Content>, Status>
    ensures ok { IfOk result (λ it.
        OpensOn ⟦<SampleRing as HeldRing>⟧.rings ⟦<ByteRing as HeldRing>⟧.rings
        (Some content.now) (ring_of ring) caps.now (Some it.value) Status.Ok) }
    ensures err { IfErr result (λ status.
        OpensOn ⟦<SampleRing as HeldRing>⟧.rings ⟦<ByteRing as HeldRing>⟧.rings
        (Some content.now) (ring_of ring) caps.now None status) }
{
    match content {
        Content::Store(store) => opened_on_heap(alloc, store, ring, caps),
        _ => Err(Status::Empty),
    }
}

/// Opens an engine over the store of a handle.
fn opened_over(
    alloc: Global,
    store: &mut Handle,
    ring: u32,
    caps: &[usize],
) -> Result<Box<Content>, Status>
    ensures ok { IfOk result (λ it.
        OpensOn ⟦<SampleRing as HeldRing>⟧.rings ⟦<ByteRing as HeldRing>⟧.rings
        store.old.held (ring_of ring) caps.now (Some it.value) Status.Ok) }
    ensures err { IfErr result (λ status.
        OpensOn ⟦<SampleRing as HeldRing>⟧.rings ⟦<ByteRing as HeldRing>⟧.rings
        store.old.held (ring_of ring) caps.now None status) }
    ensures store_stays { store.new.held ≡ store.old.held }
{
    let Some(held) = store.take(alloc) else {
        return Err(Status::Empty);
    };
    let result = opened_on(alloc, held.as_ref(), ring, caps);
    store.put(alloc, held);
    result
}

/// Opens an engine over the store of a handle, into an empty one.
pub fn open_into(
    alloc: Global,
    store: &mut Handle,
    ring: u32,
    caps: &[usize],
    engine: &mut Handle,
) -> Status
    ensures opens { OpensEngine ⟦<SampleRing as HeldRing>⟧.rings ⟦<ByteRing as HeldRing>⟧.rings
        store.old.held engine.old.held engine.new.held ring caps.now result }
    ensures store_stays { store.new.held ≡ store.old.held }
{
    if let Some(held) = engine.take(alloc) {
        engine.put(alloc, held);
        return Status::InUse;
    }
    match opened_over(alloc, store, ring, caps) {
        Ok(content) => {
            engine.put(alloc, content);
            Status::Ok
        }
        Err(status) => status,
    }
}
