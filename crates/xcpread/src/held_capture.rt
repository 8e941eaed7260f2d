//! A capture on standard input, which is held in memory since it is read twice.
ghost use Rattle.std.specs.Prelude.{◌≤◌, IfOk, OnOk, length};
ghost use Rattle.std.specs.Io.KnownBytes.{Consumes, IsAtEnd};

use crate::program_fault::ProgramFault;
use capture_recording::CaptureReadFault;
use program_input::{TextFault, front_from};
use std::alloc::Global;
use std::io::Read;

/// The longest capture that is held, in bytes.
const MAX_HELD_BYTES: usize = 268_435_456;

/// At least as many bytes are read at once, if there are as many.
const PIECE: usize = 1_048_576;

/// The most pieces, of which the last one has no byte.
const MAX_PIECES: usize = 257;

/// Reads a capture to its end.
///
/// Refused if it can't be read, and if it has more than `MAX_HELD_BYTES` bytes.
pub fn held_from<I: Read>(alloc: Global, input: &mut I) -> Result<Vec<u8>, ProgramFault>
    ensures whole { IfOk result (λ held.
        Consumes (I.remaining input.old) (I.remaining input.new) held.items) }
    ensures end { OnOk result (IsAtEnd (I.remaining input.new)) }
    ensures within { IfOk result (λ held. length held.items ≤ MAX_HELD_BYTES) }
{
    let mut held = Vec::new(alloc);
    for _ in 0..MAX_PIECES {
        let piece = match front_from(alloc, input, PIECE) {
            Ok(piece) => piece,
            Err(fault) => return Err(fault_of(fault)),
        };
        if held.len() + piece.len() > MAX_HELD_BYTES {
            return Err(ProgramFault::LongInput);
        }
        held.extend_from_slice(&piece)?;
        if piece.len() < PIECE {
            return Ok(held);
        }
    }
    Err(ProgramFault::LongInput)
}

/// Why no more of it is read.
fn fault_of(fault: TextFault) -> ProgramFault {
    match fault {
        TextFault::Memory => ProgramFault::MEMORY,
        TextFault::Unreadable => ProgramFault::Capture(CaptureReadFault::Unreadable),
    }
}
