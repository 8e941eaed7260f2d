//! The calls by which what waits at the slave of a handle is shown, and sent.

ghost use Rattle.std.specs.Prelude.{Some};
ghost use Rattle.c_slave.specs.Bytes.{PeeksSlave, SendsSlave, ShowsWaiting};

use crate::content::Content;
use crate::handle::Handle;
use c_engine::Status;
use slave_lending::LendingSlave;

/// Shows what waits, in the front of a buffer in which one frame finds room, whichever waits first.
fn peek(slave: &mut LendingSlave, buffer: &mut [u8], len: &mut usize) -> Status
    ensures { ShowsWaiting slave.old slave.new
        (record { buffer = buffer.old; len = len.old })
        (record { buffer = buffer.new; len = len.new }) result }
{
    if buffer.len() < slave.least_peek() {
        return Status::SmallBuffer;
    }
    *len = slave.peek(buffer);
    Status::Ok
}

/// Shows what waits at a slave, if this is one.
fn peek_in(content: &mut Content, buffer: &mut [u8], len: &mut usize) -> Status
    ensures { PeeksSlave (Some content.old) (Some content.new)
        (record { buffer = buffer.old; len = len.old })
        (record { buffer = buffer.new; len = len.new }) result }
{
    match content {
        Content::Slave(slave) => peek(slave, buffer, len),
        _ => Status::Empty,
    }
}

/// Shows what waits at the slave of a handle.
pub fn peek_by(handle: &mut Handle, buffer: &mut [u8], len: &mut usize) -> Status
    ensures { PeeksSlave handle.old.held handle.new.held
        (record { buffer = buffer.old; len = len.old })
        (record { buffer = buffer.new; len = len.new }) result }
{
    let Some(content) = handle.content() else {
        return Status::Empty;
    };
    peek_in(content, buffer, len)
}

/// What was shown was sent, at a slave, if this is one.
fn sent_in(content: &mut Content) -> Status
    ensures { SendsSlave (Some content.old) (Some content.new) result }
{
    match content {
        Content::Slave(slave) => slave.sent(),
        _ => return Status::Empty,
    }
    Status::Ok
}

/// What was shown was sent, at the slave of a handle.
pub fn sent_by(handle: &mut Handle) -> Status
    ensures { SendsSlave handle.old.held handle.new.held result }
{
    let Some(content) = handle.content() else {
        return Status::Empty;
    };
    sent_in(content)
}
