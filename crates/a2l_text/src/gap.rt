//! How long the blanks and comments before a word are.
ghost use Rattle.std.specs.Prelude.{◌≡◌, ◌<◌, ◌≤◌, drop, length, false};
ghost use Rattle.std.specs.Prelude.{IfSome, IfNone, IfOk, IfErr};
ghost use Rattle.a2l_text.specs.Kinds.{kind_of, is_gap};
ghost use Rattle.a2l_text.specs.Gaps.{Skips, BeginsWithPiece};
ghost use Rattle.a2l_text.specs.Faults.{IsFault, Stalls};

use crate::fault::WordFault;
use crate::fronts::{block_len, line_len};
use crate::kind::{Kind, kind_at};
use crate::split::behind;

/// How many bytes the blank or the comment at the front has, or 0 if there is neither. `None`: the
/// comment there has no end.
#[inline(always)]
fn piece_len(text: &[u8]) -> Option<usize>
    ensures within { IfSome result (λ len. len ≤ length text.now) }
    ensures piece { IfSome result (λ len. 0 < len → BeginsWithPiece text.now (drop len text.now)) }
    ensures none { IfSome result (λ len. len ≡ 0 → is_gap (kind_of text.now) ≡ false) }
    ensures fault { IfNone result (IsFault WordFault.OpenComment text.now) }
{
    match kind_at(text) {
        Kind::Blank => Some(1),
        Kind::LineComment => Some(2 + line_len(behind(text, 2))),
        Kind::BlockComment => Some(4 + block_len(behind(text, 2))?),
        Kind::Nothing | Kind::Text | Kind::Plain => Some(0),
    }
}

/// How many bytes the gap at the front has. `Err`: where in it a comment without an end begins.
pub(crate) fn gap_len(text: &[u8]) -> Result<usize, usize>
    ensures within { IfOk result (λ len. len ≤ length text.now) }
    ensures gap { IfOk result (λ len. Skips text.now (drop len text.now)) }
    ensures whole { IfOk result (λ len. is_gap (kind_of (drop len text.now)) ≡ false) }
    ensures fault_within { IfErr result (λ at. at ≤ length text.now) }
    ensures fault { IfErr result (λ at. Stalls text.now WordFault.OpenComment (drop at text.now)) }
{
    let mut at = 0;
    while at < text.len() {
        match piece_len(behind(text, at)) {
            None => return Err(at),
            Some(0) => return Ok(at),
            Some(len) => at += len,
        }
    }
    Ok(at)
}
