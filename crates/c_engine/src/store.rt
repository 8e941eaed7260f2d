//! The calls by the store of a handle.

ghost use Rattle.c_engine.specs.Answers.{CarriesCommand, MakesStore};

use crate::carrying::answer_command;
use crate::content::Content;
use crate::handle::Handle;
use crate::status::Status;
use crate::store_numbers::StoreNumbers;
use std::alloc::Global;

/// Makes a store in a handle.
pub fn make_store(alloc: Global, asked: StoreNumbers, handle: &mut Handle) -> Status
    ensures { MakesStore handle.old.held handle.new.held asked result }
{
    if let Some(store) = handle.take(alloc) {
        handle.put(alloc, store);
        return Status::InUse;
    }
    let Some(store) = asked.store(alloc) else {
        return Status::BadLimits;
    };
    let Ok(made) = Content::Store(store).boxed(alloc) else {
        return Status::Memory;
    };
    handle.put(alloc, made);
    Status::Ok
}

/// Carries a command packet out by the store of a handle.
pub fn carry_packet(
    alloc: Global,
    handle: &mut Handle,
    packet: &[u8],
    buffer: &mut [u8],
    len: &mut usize,
) -> Status
    ensures { CarriesCommand handle.old.held handle.new.held packet.now
        (record { buffer = buffer.old; len = len.old })
        (record { buffer = buffer.new; len = len.new }) result }
{
    let Some(mut held) = handle.take(alloc) else {
        return Status::Empty;
    };
    let status = match held.as_mut() {
        Content::Store(store) => answer_command(store, packet, buffer, len),
        _ => Status::Empty,
    };
    handle.put(alloc, held);
    status
}
