//! Pumps by the engine of a handle, as many as a buffer has room for.

ghost use Rattle.std.specs.Prelude.{Some};
ghost use Rattle.c_engine.specs.Fillings.{FillsHandle};

use crate::content::Content;
use crate::filling::fill;
use crate::handle::Handle;
use crate::held_ring::HeldRing;
use crate::pumped_all_out::PumpedAllOut;
use crate::status::Status;
use byte_ring::ByteRing;
use channel_ring::SampleRing;
use std::alloc::Global;

/// Pumps by the engine of a handle, until nothing is left or the next sample doesn't fit.
pub fn pump_all_by(
    alloc: Global,
    handle: &mut Handle,
    buffer: &mut [u8],
    len: &mut usize,
    pumped: &mut PumpedAllOut,
) -> Status
    ensures { FillsHandle ⟦<SampleRing as HeldRing>⟧.rings ⟦<ByteRing as HeldRing>⟧.rings
        handle.old.held handle.new.held
        (record { buffer = buffer.old; len = len.old; pumped = pumped.old })
        (record { buffer = buffer.new; len = len.new; pumped = pumped.new }) result }
{
    let Some(mut held) = handle.take(alloc) else {
        return Status::Empty;
    };
    let status = fill_in(held.as_mut(), buffer, len, pumped);
    handle.put(alloc, held);
    status
}

/// Pumps so by an engine, if this is one.
fn fill_in(
    content: &mut Content,
    buffer: &mut [u8],
    len: &mut usize,
    pumped: &mut PumpedAllOut,
) -> Status
    ensures { FillsHandle ⟦<SampleRing as HeldRing>⟧.rings ⟦<ByteRing as HeldRing>⟧.rings
        (Some content.old) (Some content.new)
        (record { buffer = buffer.old; len = len.old; pumped = pumped.old })
        (record { buffer = buffer.new; len = len.new; pumped = pumped.new }) result }
{
    match content {
        Content::Engine(engine) => fill(engine, buffer, len, pumped),
        Content::ByteEngine(engine) => fill(engine, buffer, len, pumped),
        _ => Status::Empty,
    }
}
