//! The calls by the sampler of a handle.

ghost use Rattle.std.specs.Prelude.{Some};
ghost use Rattle.c_engine.specs.Samplers.{Counts, Starts, Stops, Triggers};

use crate::content::Content;
use crate::counts_out::CountsOut;
use crate::handle::Handle;
use crate::held_ring::HeldRing;
use crate::status::Status;
use crate::taken_out::TakenOut;
use byte_ring::ByteRing;
use channel_ring::SampleRing;
use std::alloc::Global;

/// Takes a trigger by the sampler of a handle.
pub fn trigger_by(
    alloc: Global,
    handle: &mut Handle,
    image: &[u8],
    stamp: u32,
    taken: &mut TakenOut,
) -> Status
    ensures { Triggers ⟦<SampleRing as HeldRing>⟧.rings ⟦<ByteRing as HeldRing>⟧.rings
        handle.old.held handle.new.held image.now stamp taken.old taken.new result }
{
    let Some(mut held) = handle.take(alloc) else {
        return Status::Empty;
    };
    let status = trigger_in(held.as_mut(), image, stamp, taken);
    handle.put(alloc, held);
    status
}

/// Takes a trigger by a sampler, if this is one.
fn trigger_in(content: &mut Content, image: &[u8], stamp: u32, taken: &mut TakenOut) -> Status
    ensures { Triggers ⟦<SampleRing as HeldRing>⟧.rings ⟦<ByteRing as HeldRing>⟧.rings
        (Some content.old) (Some content.new) image.now stamp taken.old taken.new result }
{
    match content {
        Content::Sampler(lent) => lent.trigger(image, stamp, taken),
        Content::ByteSampler(lent) => lent.trigger(image, stamp, taken),
        _ => Status::Empty,
    }
}

/// Starts a DAQ list by the sampler of a handle.
pub fn start_by(alloc: Global, handle: &mut Handle, list: u8) -> Status
    ensures { Starts ⟦<SampleRing as HeldRing>⟧.rings ⟦<ByteRing as HeldRing>⟧.rings
        handle.old.held handle.new.held list result }
{
    let Some(mut held) = handle.take(alloc) else {
        return Status::Empty;
    };
    let status = start_in(held.as_mut(), list);
    handle.put(alloc, held);
    status
}

/// Starts a DAQ list by a sampler, if this is one.
fn start_in(content: &mut Content, list: u8) -> Status
    ensures { Starts ⟦<SampleRing as HeldRing>⟧.rings ⟦<ByteRing as HeldRing>⟧.rings
        (Some content.old) (Some content.new) list result }
{
    match content {
        Content::Sampler(lent) => lent.start(list),
        Content::ByteSampler(lent) => lent.start(list),
        _ => Status::Empty,
    }
}

/// Stops a DAQ list by the sampler of a handle.
pub fn stop_by(alloc: Global, handle: &mut Handle, list: u8) -> Status
    ensures { Stops ⟦<SampleRing as HeldRing>⟧.rings ⟦<ByteRing as HeldRing>⟧.rings
        handle.old.held handle.new.held list result }
{
    let Some(mut held) = handle.take(alloc) else {
        return Status::Empty;
    };
    let status = stop_in(held.as_mut(), list);
    handle.put(alloc, held);
    status
}

/// Stops a DAQ list by a sampler, if this is one.
fn stop_in(content: &mut Content, list: u8) -> Status
    ensures { Stops ⟦<SampleRing as HeldRing>⟧.rings ⟦<ByteRing as HeldRing>⟧.rings
        (Some content.old) (Some content.new) list result }
{
    match content {
        Content::Sampler(lent) => lent.stop(list),
        Content::ByteSampler(lent) => lent.stop(list),
        _ => Status::Empty,
    }
}

/// Tells a DAQ list's counts by the sampler of a handle.
pub fn counts_by(alloc: Global, handle: &mut Handle, list: u8, counts: &mut CountsOut) -> Status
    ensures { Counts ⟦<SampleRing as HeldRing>⟧.rings ⟦<ByteRing as HeldRing>⟧.rings
        handle.old.held handle.new.held list counts.old counts.new result }
{
    let Some(mut held) = handle.take(alloc) else {
        return Status::Empty;
    };
    let status = counts_in(held.as_mut(), list, counts);
    handle.put(alloc, held);
    status
}

/// Tells a DAQ list's counts by a sampler, if this is one.
fn counts_in(content: &mut Content, list: u8, counts: &mut CountsOut) -> Status
    ensures { Counts ⟦<SampleRing as HeldRing>⟧.rings ⟦<ByteRing as HeldRing>⟧.rings
        (Some content.old) (Some content.new) list counts.old counts.new result }
{
    match content {
        Content::Sampler(lent) => lent.counts_of(list, counts),
        Content::ByteSampler(lent) => lent.counts_of(list, counts),
        _ => Status::Empty,
    }
}
