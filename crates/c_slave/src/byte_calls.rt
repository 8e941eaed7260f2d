//! The calls by which the slave of a handle hears its master.

ghost use Rattle.std.specs.Prelude.{Some};
ghost use Rattle.c_slave.specs.Bytes.{HangsUpSlave, HearsDatagrams, Receives, ReceivesBytes};
ghost use Rattle.c_slave.specs.Bytes.{ReceivesDatagram, given_by};

use crate::content::Content;
use crate::handle::Handle;
use c_engine::Status;
use slave_lending::LendingSlave;
use std::alloc::Global;

/// Takes bytes of a stream, with a slice for each segment that is there, in their order.
fn receive(
    alloc: Global,
    slave: &mut LendingSlave,
    bytes: &[u8],
    clock: u32,
    memory: &[&[u8]],
    taken: &mut usize,
) -> Status
    ensures { ReceivesBytes slave.old slave.new bytes.now (given_by clock memory.now)
        taken.old taken.new result }
{
    if slave.is_spent() {
        return Status::Spent;
    }
    match slave.receive(alloc, bytes, clock, memory) {
        Ok(count) => {
            *taken = count;
            Status::Ok
        }
        Err(_) => Status::BadFrame,
    }
}

/// Takes bytes of a stream by a slave, if this is one.
fn receive_in(
    alloc: Global,
    content: &mut Content,
    bytes: &[u8],
    clock: u32,
    memory: &[&[u8]],
    taken: &mut usize,
) -> Status
    ensures { Receives (Some content.old) (Some content.new) bytes.now (given_by clock memory.now)
        taken.old taken.new result }
{
    match content {
        Content::Slave(slave) => receive(alloc, slave, bytes, clock, memory, taken),
        _ => Status::Empty,
    }
}

/// Takes bytes of a stream by the slave of a handle.
pub fn receive_by(
    alloc: Global,
    handle: &mut Handle,
    bytes: &[u8],
    clock: u32,
    memory: &[&[u8]],
    taken: &mut usize,
) -> Status
    ensures { Receives handle.old.held handle.new.held bytes.now (given_by clock memory.now)
        taken.old taken.new result }
{
    let Some(content) = handle.content() else {
        return Status::Empty;
    };
    receive_in(alloc, content, bytes, clock, memory, taken)
}

/// Hears the frames of a datagram.
fn hear(
    alloc: Global,
    slave: &mut LendingSlave,
    bytes: &[u8],
    clock: u32,
    memory: &[&[u8]],
    taken: &mut usize,
) -> Status
    ensures { ReceivesDatagram slave.old slave.new bytes.now (given_by clock memory.now)
        taken.old taken.new result }
{
    if slave.is_spent() {
        return Status::Spent;
    }
    *taken = slave.datagram(alloc, bytes, clock, memory);
    Status::Ok
}

/// Hears the frames of a datagram by a slave, if this is one.
fn datagram_in(
    alloc: Global,
    content: &mut Content,
    bytes: &[u8],
    clock: u32,
    memory: &[&[u8]],
    taken: &mut usize,
) -> Status
    ensures { HearsDatagrams (Some content.old) (Some content.new) bytes.now
        (given_by clock memory.now) taken.old taken.new result }
{
    match content {
        Content::Slave(slave) => hear(alloc, slave, bytes, clock, memory, taken),
        _ => Status::Empty,
    }
}

/// Hears the frames of a datagram by the slave of a handle.
pub fn datagram_by(
    alloc: Global,
    handle: &mut Handle,
    bytes: &[u8],
    clock: u32,
    memory: &[&[u8]],
    taken: &mut usize,
) -> Status
    ensures { HearsDatagrams handle.old.held handle.new.held bytes.now (given_by clock memory.now)
        taken.old taken.new result }
{
    let Some(content) = handle.content() else {
        return Status::Empty;
    };
    datagram_in(alloc, content, bytes, clock, memory, taken)
}

/// Hangs up by a slave, if this is one.
fn hang_up_in(content: &mut Content) -> Status
    ensures { HangsUpSlave (Some content.old) (Some content.new) result }
{
    match content {
        Content::Slave(slave) => slave.hang_up(),
        _ => return Status::Empty,
    }
    Status::Ok
}

/// Hangs up by the slave of a handle.
pub fn hang_up_by(handle: &mut Handle) -> Status
    ensures { HangsUpSlave handle.old.held handle.new.held result }
{
    let Some(content) = handle.content() else {
        return Status::Empty;
    };
    hang_up_in(content)
}
