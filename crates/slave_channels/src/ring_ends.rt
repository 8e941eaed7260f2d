//! An event channel's part of a measurement gets a ring of its own, and a sampler.
ghost use Rattle.std.specs.Prelude.{◌≤◌, ◌/◌, IfOk};
ghost use Rattle.frame_ring.specs.Ends.{limit_of};
ghost use Rattle.frame_ring.specs.States.{take_state};
ghost use Rattle.sampler.specs.History.{Opening};
ghost use Rattle.frame_ring.specs.declared.block.TheConstants.{BLOCK};
ghost use Rattle.frame_ring.specs.declared.limits.TheConstants.{MAX_FRAME_RING, MIN_ROOM};
ghost use Rattle.sampler.specs.Limits.{AllKeepTo, KeepsTo};
ghost use Rattle.slave_channels.specs.Channels.{IsPartAt};

use copy_plan::CopyPlan;
use daq_engine::{plans_of, sampler_over};
use daq_store::Store;
use frame_ring::limits::{MAX_FRAME_RING, MIN_ROOM};
use frame_ring::{BLOCK, FrameRing, FrameSend, FrameTake, sample_blocks};
use sampler::Sampler;
use std::alloc::{AllocError, Global};
use xcp_base::ChannelId;

/// The sampler of an event channel over the send end of a new ring of `cap` bytes, and the ring's
/// take end. The sampler has the DAQ lists of the channel that are ready in the store, and the send
/// end makes the longest of their samples, and holds back as many as the ring does.
pub(crate) fn open_ends(
    alloc: Global,
    store: &Store,
    c: ChannelId,
    cap: usize,
) -> Result<(Sampler<FrameSend>, FrameTake), AllocError>
    ensures opened { IfOk result (λ ends. (opening : Opening)
        × IsPartAt store.now c cap ends.0 (take_state ends.1) opening) }
{
    let plans = plans_of(alloc, store, c)?;
    let room = room_for(plans.as_slice(), cap);
    let Ok((send, take)) = FrameRing::new(alloc, cap, room) else {
        return Err(AllocError);
    };
    Ok((sampler_over(store, c, plans, send), take))
}

/// The blocks of all that one trigger sends of these plans, so that it goes into the ring by one
/// push: no more than the ring of `cap` bytes has, and no fewer than the longest record has, or
/// `MIN_ROOM`.
fn room_for(plans: &[CopyPlan], cap: usize) -> usize
    ensures least { MIN_ROOM ≤ result }
    ensures few { result ≤ MAX_FRAME_RING / BLOCK }
    ensures keep { AllKeepTo (limit_of result) plans.now }
{
    let longest = longest_of(plans);
    let most = (cap / BLOCK).min(MAX_FRAME_RING / BLOCK);
    longest.max(all_of(plans, most))
}

/// The blocks of the longest record of a sample of these plans, and `MIN_ROOM` at least.
fn longest_of(plans: &[CopyPlan]) -> usize
    ensures least { MIN_ROOM ≤ result }
    ensures few { result ≤ MAX_FRAME_RING / BLOCK }
    ensures keep { AllKeepTo (limit_of result) plans.now }
{
    let mut room = MIN_ROOM;
    for i in 0..plans.len() {
        room = room_with(room, &plans[i]);
    }
    room
}

/// The blocks of the records of a sample of each of these plans, or `most` if these are more.
fn all_of(plans: &[CopyPlan], most: usize) -> usize
    requires few { most ≤ MAX_FRAME_RING / BLOCK }
    ensures { result ≤ most }
{
    let mut all = 0;
    for plan in plans {
        all = most.min(all + blocks_of(plan));
    }
    all
}

/// The blocks of the record of a sample of this plan.
fn blocks_of(plan: &CopyPlan) -> usize
    ensures few { result ≤ MAX_FRAME_RING / BLOCK }
    ensures keeps { KeepsTo (limit_of result) plan.now }
{
    // for the proof: what a plan keeps to
    let _ = plan.odts();
    sample_blocks(plan.frames_len())
}

/// So many blocks, or those of the record of a sample of this plan, if these are more.
fn room_with(room: usize, plan: &CopyPlan) -> usize
    requires few { room ≤ MAX_FRAME_RING / BLOCK }
    ensures least { room ≤ result }
    ensures few { result ≤ MAX_FRAME_RING / BLOCK }
    ensures keeps { KeepsTo (limit_of result) plan.now }
{
    room.max(blocks_of(plan))
}
