//! A command packet in, its reply out.

ghost use Rattle.std.specs.Prelude.{◌≡◌, ◌≤◌, ◌++◌, length, drop, IfOk, OnErr};
ghost use Rattle.daq_store.specs.Replies.{reply_bytes};
ghost use Rattle.c_engine.specs.Answers.{AnswersCommand, RepliesTo, WantsRoom};

use crate::status::Status;
use daq_store::{NoMemory, Reply, Store, command};

/// The room that a reply needs, in bytes: the length of the longest packet that answers a
/// command.
pub const REPLY_BYTES: usize = 8;

/// Carries a command packet out, and puts the packet that answers it into the front of the buffer,
/// and its length in bytes into `len`.
pub fn answer_command(
    store: &mut Store,
    packet: &[u8],
    buffer: &mut [u8],
    len: &mut usize,
) -> Status
    ensures { AnswersCommand store.old store.new packet.now
        (record { buffer = buffer.old; len = len.old })
        (record { buffer = buffer.new; len = len.new }) result }
{
    if buffer.len() < REPLY_BYTES {
        return Status::SmallBuffer;
    }
    let Ok(reply) = carry_packet(store, packet) else {
        return Status::Memory;
    };
    *len = put_reply(reply, buffer);
    Status::Ok
}

/// Carries one command packet out, and answers it.
fn carry_packet(store: &mut Store, packet: &[u8]) -> Result<Reply, NoMemory>
    ensures ok { IfOk result (RepliesTo store.old store.new packet.now) }
    ensures no_memory { OnErr result (WantsRoom store.old packet.now) }
    ensures unchanged { OnErr result (store.new ≡ store.old) }
{
    match command::read(packet) {
        Ok(command) => command::carry_out(store, command),
        Err(code) => Ok(Reply::Error(code)),
    }
}

/// Puts a reply into the front of a buffer, and answers its length in bytes.
fn put_reply(reply: Reply, buffer: &mut [u8]) -> usize
    requires { REPLY_BYTES ≤ length buffer.old }
    ensures len { result ≡ length (reply_bytes reply) }
    ensures bytes { buffer.new ≡ reply_bytes reply ++ drop result buffer.old }
{
    let bytes = reply.bytes();
    let len = bytes.len();
    buffer[..len].copy_from_slice(bytes.as_slice());
    len
}
