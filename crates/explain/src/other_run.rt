//! Why a recording isn't one of a run.
use crate::byte_text::ByteText;
use crate::stop::{Stop, front_of, write_stop};
use crate::story::write_packet;
use daq_reader::Unread;
use run_file::Run;
use std::alloc::{AllocError, Global};

/// Why a recording, which has this name and these first bytes, doesn't begin with the replies to
/// the set-up of a run: the first reply that isn't there, and what stands in its place.
pub fn why_other_run(
    alloc: Global,
    name: &str,
    run: &Run,
    replies: &[u8],
    front: &[u8],
) -> Result<String, AllocError> {
    let mut why = String::new(alloc);
    let start = Stop {
        name,
        byte: 0,
        frame: 0,
        rest: front,
    };
    write_other(&mut why, run.setup(), Unread::new(replies, 0), start)?;
    Ok(why)
}

/// Writes the first reply to some packets that isn't there, and what stands in its place.
fn write_other(
    why: &mut String,
    packets: &[Vec<u8>],
    replies: Unread<'_>,
    start: Stop<'_>,
) -> Result<(), AllocError> {
    let mut replies = replies;
    let mut stop = start;
    for (i, packet) in packets.iter().enumerate() {
        let counter = replies.counter();
        let Some(frame) = next_frame(&mut replies) else {
            return Ok(());
        };
        if !stop.rest.starts_with(frame) {
            write_difference(why, stop, frame)?;
            let mut expected = Unread::new(frame, counter);
            return write_packet(why, i, packet.as_slice(), &mut expected);
        }
        stop = behind(stop, frame.len());
    }
    Ok(())
}

/// The frame of the next reply, if there is one.
fn next_frame<'a>(replies: &mut Unread<'a>) -> Option<&'a [u8]> {
    let whole = replies.rest();
    match replies.next_packet() {
        Ok(Some(reply)) => Some(front_of(whole, 4 + reply.len())),
        _ => None,
    }
}

/// Writes a place, and the frame that was expected there.
fn write_difference(why: &mut String, stop: Stop<'_>, frame: &[u8]) -> Result<(), AllocError> {
    write_stop(why, stop, frame.len())?;
    let bytes = ByteText { bytes: frame };
    writeln!(why, "\nexpected: {bytes}")
}

/// The place behind one more frame, of `len` bytes.
fn behind(stop: Stop<'_>, len: usize) -> Stop<'_> {
    Stop {
        name: stop.name,
        byte: stop.byte.wrapping_add(len as u64),
        frame: stop.frame.wrapping_add(1),
        rest: rest_of(stop.rest, len),
    }
}

/// What is behind the first `len` bytes of some.
fn rest_of(bytes: &[u8], len: usize) -> &[u8] {
    if bytes.len() < len {
        return &bytes[bytes.len()..];
    }
    &bytes[len..]
}
