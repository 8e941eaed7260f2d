//! An engine is opened over a store.
ghost use Rattle.std.specs.Prelude.{◌≡◌, IfOk, false};
ghost use Rattle.frame_writer.specs.Writing.{state_of};
ghost use Rattle.daq_engine.specs.Engines.{IsOpenedFrom, engine_state};
ghost use Rattle.daq_engine.specs.Fillings.{next_ring};
ghost use Rattle.daq_engine.specs.Openings.{AnswersOpening, is_byte_cap, is_cap};

use crate::engine::Engine;
use crate::open_fault::OpenFault;
use crate::opening::open_over;
use crate::ring::Ring;
use byte_ring::{ByteLeft, ByteRing, ByteSend, ByteTake};
use channel_ring::{RingEnd, SampleRing, SendEnd, SendHalf, SendLeft, TakeEnd, TakeHalf};
use daq_store::Store;
use frame_writer::{FrameWriter, Out};
use std::alloc::Global;

impl<O: Out> Engine<O, TakeHalf> {
    /// An engine over a store, whose event channel `c` has a lock-free ring with `caps[c]` places.
    ///
    /// Refused as `open` refuses it, in the same order; then the writer comes back as it was.
    pub fn open(
        alloc: Global,
        store: &Store,
        caps: &[usize],
        writer: FrameWriter<O>,
    ) -> Result<Engine<O, TakeHalf>, (OpenFault, FrameWriter<O>)>
        requires is_open { (state_of O.Out writer).closed ≡ false }

        ensures answers { AnswersOpening is_cap store.now caps.now writer result }
        ensures opened { IfOk result (λ engine. IsOpenedFrom
            ⟦<SendHalf as SendEnd>⟧ ⟦<SendLeft as RingEnd>⟧ store.now caps.now
            (state_of O.Out writer) (engine_state O.Out ⟦<TakeHalf as TakeEnd>⟧ engine)) }
        ensures next { IfOk result (λ engine. next_ring engine ≡ 0) }
    {
        engine_over::<SampleRing, O>(alloc, store, caps, writer)
    }
}

impl<O: Out> Engine<O, ByteTake> {
    /// An engine over a store, whose event channel `c` has a lock-free ring of `caps[c]` bytes.
    ///
    /// Refused as `open_bytes` refuses it, in the same order; then the writer comes back as it was.
    pub fn open_bytes(
        alloc: Global,
        store: &Store,
        caps: &[usize],
        writer: FrameWriter<O>,
    ) -> Result<Engine<O, ByteTake>, (OpenFault, FrameWriter<O>)>
        requires is_open { (state_of O.Out writer).closed ≡ false }

        ensures answers { AnswersOpening is_byte_cap store.now caps.now writer result }
        ensures opened { IfOk result (λ engine. IsOpenedFrom
            ⟦<ByteSend as SendEnd>⟧ ⟦<ByteLeft as RingEnd>⟧ store.now caps.now
            (state_of O.Out writer) (engine_state O.Out ⟦<ByteTake as TakeEnd>⟧ engine)) }
        ensures next { IfOk result (λ engine. next_ring engine ≡ 0) }
    {
        engine_over::<ByteRing, O>(alloc, store, caps, writer)
    }
}

/// An engine over a store, whose event channels have rings of one kind, that of `c` with `caps[c]`
/// units.
///
/// Refused as `open_over` refuses it, in the same order; then the writer comes back as it was.
pub fn engine_over<R: Ring, O: Out>(
    alloc: Global,
    store: &Store,
    caps: &[usize],
    writer: FrameWriter<O>,
) -> Result<Engine<O, R::Take>, (OpenFault, FrameWriter<O>)>
    requires is_open { (state_of O.Out writer).closed ≡ false }

    ensures answers { AnswersOpening R.is_cap store.now caps.now writer result }
    ensures opened { IfOk result (λ engine. IsOpenedFrom
        R.Send.SendEnd R.Send.End.RingEnd store.now caps.now
        (state_of O.Out writer) (engine_state O.Out R.Take.TakeEnd engine)) }
    ensures next { IfOk result (λ engine. next_ring engine ≡ 0) }
{
    let (samplers, transmitter) = open_over::<R, O>(alloc, store, caps, writer)?;
    Ok(Engine::new(samplers, transmitter))
}
