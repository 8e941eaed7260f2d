//! The calls by which an engine is opened, hands out its samplers, is pumped, and is freed.

ghost use Rattle.std.specs.Prelude.{◌≡◌};
ghost use Rattle.c_engine.specs.Answers.{Frees};
ghost use Rattle.c_engine.specs.Engines.{GivesSampler, OpensEngine, PumpsHandle};
ghost use Rattle.c_engine.specs.Fillings.{FillsHandle};
ghost use Rattle.c_engine.specs.Statuses.{number_of};
ghost use Rattle.c_engine.specs.declared.status.Status.{Status as StatusOf};

use byte_ring::ByteRing;
use c_engine::{
    Handle, HeldRing, PumpedAllOut, PumpedOut, give_sampler, open_into, pump_all_by, pump_by,
};
use channel_ring::SampleRing;
use std::alloc::Global;

/// Opens an engine over a store, which stays as it is, with rings of the kind that has this number
/// in `ng_ring`. That of event channel `c` has `caps[c]` places, 1 to 1024, or bytes, 532 to
/// 65536.
///
/// Refused in this order: `InUse`, if the engine's handle isn't empty; `Empty`, without a store;
/// `BadLimits`, without such a kind of ring; `BadCaps`, `NothingRunning`, `Memory`.
#[unsafe(no_mangle)]
pub extern "C" fn ng_open(
    alloc: Global,
    store: &mut Handle,
    ring: u32,
    caps: &[usize],
    engine: &mut Handle,
) -> u32
    ensures opens { (status : StatusOf) × (result ≡ number_of status)
        × OpensEngine ⟦<SampleRing as HeldRing>⟧.rings ⟦<ByteRing as HeldRing>⟧.rings
        store.old.held engine.old.held engine.new.held ring caps.now status }
    ensures store_stays { store.new.held ≡ store.old.held }
{
    open_into(alloc, store, ring, caps, engine).number()
}

/// Hands out the sampler of the lowest event channel whose sampler wasn't handed out yet.
///
/// Refused in this order: `InUse`, if the sampler's handle isn't empty; `Empty`, without an engine;
/// `NoSampler`, if all were handed out; `Memory`.
#[unsafe(no_mangle)]
pub extern "C" fn ng_next_sampler(alloc: Global, engine: &mut Handle, sampler: &mut Handle) -> u32
    ensures { (status : StatusOf) × (result ≡ number_of status)
        × GivesSampler engine.old.held engine.new.held sampler.old.held sampler.new.held status }
{
    give_sampler(alloc, engine, sampler).number()
}

/// Takes at most one item of each ring, and puts the frames of the samples into the front of the
/// buffer, and their length in bytes into `len`.
///
/// Refused in this order: `Empty`, without an engine; `SmallBuffer`, below 4352 bytes, the most
/// that the samples of 8 event channels take; `Spent`, once `MAX_TAKEN` items were taken. Then
/// nothing is taken.
#[unsafe(no_mangle)]
pub extern "C" fn ng_pump(
    alloc: Global,
    engine: &mut Handle,
    buffer: &mut [u8],
    len: &mut usize,
    pumped: &mut PumpedOut,
) -> u32
    ensures { (status : StatusOf) × (result ≡ number_of status)
        × PumpsHandle ⟦<SampleRing as HeldRing>⟧.rings ⟦<ByteRing as HeldRing>⟧.rings
        engine.old.held engine.new.held
        (record { buffer = buffer.old; len = len.old; pumped = pumped.old })
        (record { buffer = buffer.new; len = len.new; pumped = pumped.new }) status }
{
    pump_by(alloc, engine, buffer, len, pumped).number()
}

/// Pumps until a pump finds nothing or the frames of the next sample don't fit, and puts the frames
/// of the samples into the front of the buffer, and their length in bytes into `len`.
///
/// Refused in this order: `Empty`, without an engine; `SmallBuffer`, below 544 bytes, the most that
/// one sample takes; `Spent`, once `MAX_TAKEN` items were taken. Then nothing is taken.
#[unsafe(no_mangle)]
pub extern "C" fn ng_pump_all(
    alloc: Global,
    engine: &mut Handle,
    buffer: &mut [u8],
    len: &mut usize,
    pumped: &mut PumpedAllOut,
) -> u32
    ensures { (status : StatusOf) × (result ≡ number_of status)
        × FillsHandle ⟦<SampleRing as HeldRing>⟧.rings ⟦<ByteRing as HeldRing>⟧.rings
        engine.old.held engine.new.held
        (record { buffer = buffer.old; len = len.old; pumped = pumped.old })
        (record { buffer = buffer.new; len = len.new; pumped = pumped.new }) status }
{
    pump_all_by(alloc, engine, buffer, len, pumped).number()
}

/// Gives an engine up, with the samplers that weren't handed out. Refused with `Empty`.
#[unsafe(no_mangle)]
pub extern "C" fn ng_engine_free(alloc: Global, engine: &mut Handle) -> u32
    ensures { (status : StatusOf) × (result ≡ number_of status)
        × Frees engine.old.held engine.new.held status }
{
    engine.free(alloc).number()
}

/// Gives a sampler up. Refused with `Empty`.
#[unsafe(no_mangle)]
pub extern "C" fn ng_sampler_free(alloc: Global, sampler: &mut Handle) -> u32
    ensures { (status : StatusOf) × (result ≡ number_of status)
        × Frees sampler.old.held sampler.new.held status }
{
    sampler.free(alloc).number()
}
