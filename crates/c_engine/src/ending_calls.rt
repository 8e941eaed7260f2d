//! The finish of a sampler, and a drain by the engine of a handle.

ghost use Rattle.std.specs.Prelude.{◌≡◌, ◌↔◌, IsTrue, Some};
ghost use Rattle.c_engine.specs.Ends.{Drains};
ghost use Rattle.c_engine.specs.Samplers.{FinishesBy, IsSampler, status_of_finish};

use crate::content::Content;
use crate::draining::drain;
use crate::given_back::GivenBack;
use crate::handle::Handle;
use crate::held_ring::HeldRing;
use crate::pumped_out::PumpedOut;
use crate::status::Status;
use byte_ring::ByteRing;
use channel_ring::SampleRing;
use std::alloc::Global;

/// Whether a sampler is held.
fn holds_sampler(content: &Content) -> bool
    ensures { IsTrue result ↔ IsSampler content.now }
{
    matches!(content, Content::Sampler(_) | Content::ByteSampler(_))
}

/// Finishes the sampler of a handle, and gives what is left of it back to its engine: the way on
/// which it was given; or `Empty`, if there is no sampler; or `NoEngine`, if the engine was freed.
pub fn finish_by(alloc: Global, handle: &mut Handle) -> Result<GivenBack, Status>
    ensures { FinishesBy ⟦<SampleRing as HeldRing>⟧.rings ⟦<ByteRing as HeldRing>⟧.rings
        handle.old.held handle.new.held result }
{
    let Some(held) = handle.take(alloc) else {
        return Err(Status::Empty);
    };
    if !holds_sampler(held.as_ref()) {
        handle.put(alloc, held);
        return Err(Status::Empty);
    }
    match Box::into_inner(held) {
        Content::Sampler(lent) => Ok(GivenBack::Items(lent.finish()?)),
        Content::ByteSampler(lent) => Ok(GivenBack::Bytes(lent.finish()?)),
        _ => unreachable!(),
    }
}

/// What a finish is to C: what was given back is there for its engine, and this end of the way is
/// freed.
pub fn status_of_finish(finish: Result<GivenBack, Status>) -> Status
    ensures { result ≡ status_of_finish finish }
{
    match finish {
        Ok(_given) => Status::Ok,
        Err(status) => status,
    }
}

/// Drains by the engine of a handle.
pub fn drain_by(
    alloc: Global,
    handle: &mut Handle,
    buffer: &mut [u8],
    len: &mut usize,
    pumped: &mut PumpedOut,
    left: &mut bool,
) -> Status
    ensures { Drains ⟦<SampleRing as HeldRing>⟧.rings ⟦<ByteRing as HeldRing>⟧.rings
        handle.old.held handle.new.held
        (record {
          frames = record { buffer = buffer.old; len = len.old; pumped = pumped.old };
          left = left.old;
        })
        (record {
          frames = record { buffer = buffer.new; len = len.new; pumped = pumped.new };
          left = left.new;
        })
        result }
{
    let Some(mut held) = handle.take(alloc) else {
        return Status::Empty;
    };
    let status = drain_in(held.as_mut(), buffer, len, pumped, left);
    handle.put(alloc, held);
    status
}

/// Drains by an engine, if this is one.
fn drain_in(
    content: &mut Content,
    buffer: &mut [u8],
    len: &mut usize,
    pumped: &mut PumpedOut,
    left: &mut bool,
) -> Status
    ensures { Drains ⟦<SampleRing as HeldRing>⟧.rings ⟦<ByteRing as HeldRing>⟧.rings
        (Some content.old) (Some content.new)
        (record {
          frames = record { buffer = buffer.old; len = len.old; pumped = pumped.old };
          left = left.old;
        })
        (record {
          frames = record { buffer = buffer.new; len = len.new; pumped = pumped.new };
          left = left.new;
        })
        result }
{
    match content {
        Content::Engine(engine) => drain(engine, buffer, len, pumped, left),
        Content::ByteEngine(engine) => drain(engine, buffer, len, pumped, left),
        _ => Status::Empty,
    }
}
