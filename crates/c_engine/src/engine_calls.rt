//! A pump by the engine of a handle.

ghost use Rattle.std.specs.Prelude.{Some};
ghost use Rattle.c_engine.specs.Engines.{PumpsHandle};

use crate::content::Content;
use crate::handle::Handle;
use crate::held_ring::HeldRing;
use crate::pumped_out::PumpedOut;
use crate::pumping::pump;
use crate::status::Status;
use byte_ring::ByteRing;
use channel_ring::SampleRing;
use std::alloc::Global;

/// Pumps by the engine of a handle.
pub fn pump_by(
    alloc: Global,
    handle: &mut Handle,
    buffer: &mut [u8],
    len: &mut usize,
    pumped: &mut PumpedOut,
) -> Status
    ensures { PumpsHandle ⟦<SampleRing as HeldRing>⟧.rings ⟦<ByteRing as HeldRing>⟧.rings
        handle.old.held handle.new.held
        (record { buffer = buffer.old; len = len.old; pumped = pumped.old })
        (record { buffer = buffer.new; len = len.new; pumped = pumped.new }) result }
{
    let Some(mut held) = handle.take(alloc) else {
        return Status::Empty;
    };
    let status = pump_in(held.as_mut(), buffer, len, pumped);
    handle.put(alloc, held);
    status
}

/// Pumps by an engine, if this is one.
fn pump_in(
    content: &mut Content,
    buffer: &mut [u8],
    len: &mut usize,
    pumped: &mut PumpedOut,
) -> Status
    ensures { PumpsHandle ⟦<SampleRing as HeldRing>⟧.rings ⟦<ByteRing as HeldRing>⟧.rings
        (Some content.old) (Some content.new)
        (record { buffer = buffer.old; len = len.old; pumped = pumped.old })
        (record { buffer = buffer.new; len = len.new; pumped = pumped.new }) result }
{
    match content {
        Content::Engine(engine) => pump(engine, buffer, len, pumped),
        Content::ByteEngine(engine) => pump(engine, buffer, len, pumped),
        _ => Status::Empty,
    }
}
