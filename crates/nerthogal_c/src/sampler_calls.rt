//! The calls of a sampler.

ghost use Rattle.std.specs.Prelude.{◌≡◌};
ghost use Rattle.c_engine.specs.Statuses.{number_of};
ghost use Rattle.c_engine.specs.Samplers.{Counts, Starts, Stops, Triggers};
ghost use Rattle.c_engine.specs.declared.status.Status.{Status as StatusOf};

use byte_ring::ByteRing;
use c_engine::{CountsOut, Handle, HeldRing, TakenOut, counts_by, start_by, stop_by, trigger_by};
use channel_ring::SampleRing;
use std::alloc::Global;

/// Takes a trigger of the sampler's event channel, with the memory image and a timestamp in ticks.
///
/// Refused in this order: no sampler, an image of another length, `MAX_TRIGGERS` triggers taken.
#[unsafe(no_mangle)]
pub extern "C" fn ng_trigger(
    alloc: Global,
    sampler: &mut Handle,
    image: &[u8],
    stamp: u32,
    taken: &mut TakenOut,
) -> u32
    ensures { (status : StatusOf) × (result ≡ number_of status)
        × Triggers ⟦<SampleRing as HeldRing>⟧.rings ⟦<ByteRing as HeldRing>⟧.rings
        sampler.old.held sampler.new.held image.now stamp taken.old taken.new status }
{
    trigger_by(alloc, sampler, image, stamp, taken).number()
}

/// Starts a DAQ list of the sampler's event channel.
///
/// Refused in this order: no sampler, not a list of the channel, it runs already.
#[unsafe(no_mangle)]
pub extern "C" fn ng_start(alloc: Global, sampler: &mut Handle, list: u8) -> u32
    ensures { (status : StatusOf) × (result ≡ number_of status)
        × Starts ⟦<SampleRing as HeldRing>⟧.rings ⟦<ByteRing as HeldRing>⟧.rings
        sampler.old.held sampler.new.held list status }
{
    start_by(alloc, sampler, list).number()
}

/// Stops a DAQ list of the sampler's event channel; its stop marker goes into the ring.
///
/// Refused in this order: no sampler, not a list of the channel, it doesn't run, no room.
#[unsafe(no_mangle)]
pub extern "C" fn ng_stop(alloc: Global, sampler: &mut Handle, list: u8) -> u32
    ensures { (status : StatusOf) × (result ≡ number_of status)
        × Stops ⟦<SampleRing as HeldRing>⟧.rings ⟦<ByteRing as HeldRing>⟧.rings
        sampler.old.held sampler.new.held list status }
{
    stop_by(alloc, sampler, list).number()
}

/// Tells how often a DAQ list of the sampler's event channel was due, and what became of its
/// samples.
///
/// Refused in this order: no sampler, not a list of the channel.
#[unsafe(no_mangle)]
pub extern "C" fn ng_counts_of(
    alloc: Global,
    sampler: &mut Handle,
    list: u8,
    counts: &mut CountsOut,
) -> u32
    ensures { (status : StatusOf) × (result ≡ number_of status)
        × Counts ⟦<SampleRing as HeldRing>⟧.rings ⟦<ByteRing as HeldRing>⟧.rings
        sampler.old.held sampler.new.held list counts.old counts.new status }
{
    counts_by(alloc, sampler, list, counts).number()
}
