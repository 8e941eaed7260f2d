//! The bytes of a recording that were read and not yet taken.
ghost use Rattle.std.specs.Prelude.{◌≡◌, ◌⊎◌, ◌-◌, ◌<◌, ◌≤◌, IfErr, IfOk, OnOk, drop, length, true};
ghost use Rattle.std.specs.Io.{StartsWith, appended_bytes};
ghost use Rattle.std.specs.Io.KnownBytes.{Consumes, IsAtEnd};
ghost use Rattle.program_input.specs.declared.reading.TheConstants.{MAX_TEXT_BYTES};
ghost use Rattle.recording.specs.declared.recording_fault.RecordingFault.TheVariants.{Unreadable};
ghost use Rattle.recording.specs.declared.recording_fault.RecordingFault.TheVariants.{Memory};

use crate::place::Place;
use crate::recording_fault::RecordingFault;
use program_input::is_read_to_end;
use std::io::Read;

/// How many bytes are asked for in one read.
pub const CHUNK: usize = 65_536;

/// The most reads of a recording, the one that finds its end among them.
pub const MAX_READS: u64 = 1_099_511_627_776;

/// The longest frame, in bytes.
pub const MAX_FRAME: usize = 65_539;

/// Bytes of a recording that were read, and not yet taken.
#[derive(Drop)]
pub struct Piece {
    /// The bytes.
    pub bytes: Vec<u8>,
    /// The place of the first.
    pub place: Place,
}

/// Makes one read, puts what it gave behind the bytes that are there, and tells whether it met the
/// end.
pub fn read_more<I: Read>(
    input: &mut I,
    chunk: &mut [u8],
    held: &mut Vec<u8>,
) -> Result<bool, RecordingFault>
    requires room { 0 < length chunk.old }
    requires short { length held.old.items ≤ MAX_TEXT_BYTES }
    ensures appends { OnOk result (StartsWith held.new.items held.old.items) }
    ensures taken { OnOk result (Consumes (I.remaining input.old) (I.remaining input.new)
        (appended_bytes held.old.items held.new.items)) }
    ensures end { IfOk result (λ at_end. at_end ≡ true → IsAtEnd (I.remaining input.new)) }
    ensures nothing { IfOk result (λ at_end. at_end ≡ true → held.new.items ≡ held.old.items) }
    ensures within { OnOk result (length held.new.items ≤ MAX_TEXT_BYTES) }
    ensures room_stays { length chunk.new ≡ length chunk.old }
    ensures fault { IfErr result (λ f. (f ≡ Unreadable) ⊎ (f ≡ Memory)) }
{
    is_read_to_end(input, chunk, held).map_err(RecordingFault::of_text)
}

/// Drops the first `n` bytes.
pub fn drop_front(held: &mut Vec<u8>, n: usize)
    requires { n ≤ length held.old.items }
    ensures { held.new.items ≡ drop n held.old.items }
{
    let len = held.len();
    held.as_mut_slice().copy_within(n..len, 0);
    held.truncate(len - n);
}
