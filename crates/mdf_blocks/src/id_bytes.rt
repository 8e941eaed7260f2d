//! The identification of a file.
ghost use Rattle.std.specs.Prelude.{◌≡◌, if◌then◌else◌};
ghost use Rattle.mdf_blocks.specs.Tables.{file_id, id_block, id_bytes, unfinished_flags};

use crate::file_state::FileState;

/// The first 64 bytes of a file, with eight letters that name the program (ASAM MDF 4.1, ID).
pub fn identification(state: FileState, program: &[u8; 8]) -> [u8; 64]
    ensures { result ≡ id_block state program.now }
{
    with_letters(&file_id(state), program, unfinished_flags(state))
}

/// The same, by the letters that the file begins with, and by its flags.
fn with_letters(file: &[u8; 8], program: &[u8; 8], flags: u16) -> [u8; 64]
    ensures { result ≡ id_bytes file.now program.now flags }
{
    let [f0, f1, f2, f3, f4, f5, f6, f7] = *file;
    let [p0, p1, p2, p3, p4, p5, p6, p7] = *program;
    let [u0, u1] = flags.to_le_bytes();
    [
        f0, f1, f2, f3, f4, f5, f6, f7, b'4', b'.', b'1', b'0', b' ', b' ', b' ', b' ', //
        p0, p1, p2, p3, p4, p5, p6, p7, 0, 0, 0, 0, 154, 1, 0, 0, //
        0, 0, 0, 0, 0, 0, 0, 0, 0, 0, 0, 0, 0, 0, 0, 0, //
        0, 0, 0, 0, 0, 0, 0, 0, 0, 0, 0, 0, u0, u1, 0, 0,
    ]
}

/// The letters that a file begins with.
fn file_id(state: FileState) -> [u8; 8]
    ensures { result ≡ file_id state }
{
    match state {
        FileState::Finished => *b"MDF     ",
        FileState::Unfinished { .. } => *b"UnFinMF ",
    }
}

/// What is still to be done, a bit for each.
fn unfinished_flags(state: FileState) -> u16
    ensures { result ≡ unfinished_flags state }
{
    match state {
        FileState::Finished => 0,
        FileState::Unfinished {
            cycles,
            last_data,
            last_list,
        } => flag(cycles, 1) + flag(last_data, 4) + flag(last_list, 16),
    }
}

/// A flag, if it is set.
fn flag(set: bool, flag: u16) -> u16
    ensures { result ≡ (if set then flag else 0) }
{
    if set { flag } else { 0 }
}
