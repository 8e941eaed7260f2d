//! Reads a text, or the front of one, from a file or from standard input.
ghost use Rattle.std.specs.Prelude.{◌≡◌, ◌<◌, ◌≤◌, IfOk, OnOk, length, string_bytes, true};
ghost use Rattle.std.specs.Io.{StartsWith, appended_bytes};
ghost use Rattle.std.specs.Io.KnownBytes.{Consumes, IsAtEnd};

use crate::text_fault::TextFault;
use std::alloc::Global;
use std::io::{ErrorKind, Read};

/// The longest text that is read, in bytes.
pub const MAX_TEXT_BYTES: usize = 67_108_864;

/// The most reads of a text, the one that finds its end among them.
const MAX_READS: usize = 67_108_864;

/// How many bytes are asked for in one read.
const CHUNK: usize = 65_536;

/// Reads a text to its end.
///
/// Refused if a read fails, but for an interruption, which counts as a read of no byte; if the
/// text has more than `MAX_TEXT_BYTES` bytes, or isn't at its end after `MAX_READS` reads; and if
/// it isn't UTF-8.
pub fn text_from<I: Read>(alloc: Global, input: &mut I) -> Result<String, TextFault>
    ensures whole { IfOk result (λ text.
        Consumes (I.remaining input.old) (I.remaining input.new) (string_bytes text)) }
    ensures end { OnOk result (IsAtEnd (I.remaining input.new)) }
    ensures within { IfOk result (λ text. length (string_bytes text) ≤ MAX_TEXT_BYTES) }
{
    let bytes = bytes_from(alloc, input)?;
    String::from_utf8(bytes).map_err(|_| TextFault::Unreadable)
}

/// Reads bytes to their end. They need not be UTF-8; else it refuses what `text_from` refuses.
pub fn bytes_from<I: Read>(alloc: Global, input: &mut I) -> Result<Vec<u8>, TextFault>
    ensures whole { IfOk result (λ bytes.
        Consumes (I.remaining input.old) (I.remaining input.new) bytes.items) }
    ensures end { OnOk result (IsAtEnd (I.remaining input.new)) }
    ensures within { IfOk result (λ bytes. length bytes.items ≤ MAX_TEXT_BYTES) }
{
    front_from(alloc, input, usize::MAX)
}

/// Reads until so many bytes are there, or to the end, if that comes first.
///
/// Refused if a read fails, but for an interruption, which counts as a read of no byte; if there
/// would be more than `MAX_TEXT_BYTES` bytes, or `MAX_READS` reads don't do; lack of memory is
/// `Memory`.
pub fn front_from<I: Read>(alloc: Global, input: &mut I, len: usize) -> Result<Vec<u8>, TextFault>
    ensures taken { IfOk result (λ bytes.
        Consumes (I.remaining input.old) (I.remaining input.new) bytes.items) }
    ensures all { IfOk result (λ bytes.
        length bytes.items < len → IsAtEnd (I.remaining input.new)) }
    ensures within { IfOk result (λ bytes. length bytes.items ≤ MAX_TEXT_BYTES) }
{
    let mut bytes = Vec::new(alloc);
    let mut chunk = [0; CHUNK];
    for _ in 0..MAX_READS {
        if bytes.len() >= len {
            return Ok(bytes);
        }
        if is_read_to_end(input, &mut chunk, &mut bytes)? {
            return Ok(bytes);
        }
    }
    Err(TextFault::Unreadable)
}

/// Makes one read, appends what it gave, and returns whether it met the end.
///
/// An interruption counts as a read of no byte. Refused if a read fails, and if there would be more
/// than `MAX_TEXT_BYTES` bytes; lack of memory is `Memory`.
pub fn is_read_to_end<I: Read>(
    input: &mut I,
    chunk: &mut [u8],
    bytes: &mut Vec<u8>,
) -> Result<bool, TextFault>
    requires room { 0 < length chunk.old }
    requires short { length bytes.old.items ≤ MAX_TEXT_BYTES }
    ensures appends { OnOk result (StartsWith bytes.new.items bytes.old.items) }
    ensures taken { OnOk result (Consumes (I.remaining input.old) (I.remaining input.new)
        (appended_bytes bytes.old.items bytes.new.items)) }
    ensures end { IfOk result (λ at_end. at_end ≡ true → IsAtEnd (I.remaining input.new)) }
    ensures nothing { IfOk result (λ at_end. at_end ≡ true → bytes.new.items ≡ bytes.old.items) }
    ensures within { OnOk result (length bytes.new.items ≤ MAX_TEXT_BYTES) }
    ensures room_stays { length chunk.new ≡ length chunk.old }
{
    let count = match input.read(chunk) {
        Ok(count) => count,
        Err(error) if error.kind() == ErrorKind::Interrupted => return Ok(false),
        Err(error) => return Err(TextFault::Unreadable.or_memory(&error)),
    };
    if bytes.len() + count > MAX_TEXT_BYTES {
        return Err(TextFault::Unreadable);
    }
    bytes.extend_from_slice(&chunk[..count])?;
    Ok(count == 0)
}
