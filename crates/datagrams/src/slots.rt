//! What came first at each place of a datagram.
ghost use Rattle.std.specs.Prelude.{◌≡◌, ◌+◌, ◌≤◌, ℕ, List, None, get_or, length, vec_len};
ghost use Rattle.std.specs.Prelude.{IfOk, IfSome, IsNone, OnErr, OnOk};
ghost use Rattle.std.specs.Option.{option_or};
ghost use Rattle.datagrams.specs.Inner.{IsJoined, piece_shown};
ghost use Rattle.datagrams.specs.Parts.{byte_in};

use crate::piece::Piece;
use std::alloc::{AllocError, Global};

/// What came at a place.
fn slot_at(slots: &[Option<u8>], i: usize) -> Option<u8>
    ensures { result ≡ get_or slots.now i None }
{
    if i < slots.len() { slots[i] } else { None }
}

/// What came first at a place, if this piece comes last.
fn slot_with(slots: &[Option<u8>], piece: Piece<'_>, i: usize) -> Option<u8>
    ensures { result ≡ option_or (get_or slots.now i None) (byte_in (piece_shown piece.entry) i) }
{
    slot_at(slots, i).or(piece.byte_at(i))
}

/// What came up to an end, if this piece comes last and nothing is missing then.
pub fn joined(
    alloc: Global,
    slots: &[Option<u8>],
    piece: Piece<'_>,
    end: usize,
) -> Result<Option<Vec<u8>>, AllocError>
    ensures whole { IfOk result (λ joined. IfSome joined (λ bytes.
        IsJoined slots.now (piece_shown piece.entry) end bytes.items)) }
    ensures missing { IfOk result (λ joined. IsNone joined
        → (bytes : List ℕ) → IsJoined slots.now (piece_shown piece.entry) end bytes → ⊥) }
{
    let mut bytes = Vec::new(alloc);
    for i in 0..end {
        let Some(byte) = slot_with(slots, piece, i) else {
            return Ok(None);
        };
        bytes.push(byte)?;
    }
    Ok(Some(bytes))
}

/// Makes places up to an end, at which nothing came.
pub fn make_places(slots: &mut Vec<Option<u8>>, end: usize) -> Result<(), AllocError>
    ensures ok { OnOk result (end ≤ vec_len slots.new) }
    ensures each { (i : ℕ) → get_or slots.new.items i None ≡ get_or slots.old.items i None }
    ensures err { OnErr result (slots.new.items ≡ slots.old.items) }
{
    if slots.len() >= end {
        return Ok(());
    }
    slots.resize(end, None)
}

/// Puts a piece where nothing came.
pub fn put(slots: &mut [Option<u8>], piece: Piece<'_>)
    requires { piece.at + length piece.bytes.now ≤ length slots.old }
    ensures each { (i : ℕ) → get_or slots.new i None
        ≡ option_or (get_or slots.old i None) (byte_in (piece_shown piece.entry) i) }
{
    for j in 0..piece.bytes.len() {
        let slot = slots[piece.at + j].or(Some(piece.bytes[j]));
        slots[piece.at + j] = slot;
    }
}
