//! How far the plain word, the line or the block comment at the front of a text goes.
ghost use Rattle.std.specs.Prelude.{◌≡◌, ◌≤◌, take, drop, length, IfSome, IfNone, ◌∷◌, ◌+◌};
ghost use Rattle.a2l_text.specs.Fronts.{IsUpTo, NeverEnds, ends_plain, ends_line, ends_block};

use crate::kind::{Kind, kind_at};
use crate::split::behind;

/// Whether no byte of a plain word stands at the front.
#[inline(always)]
#[tactic(auto, unfolding(crate::specs::Fronts::ends_plain))]
fn ends_plain(text: &[u8]) -> bool
    ensures { result ≡ ends_plain text.now }
{
    !matches!(kind_at(text), Kind::Plain)
}

/// How many bytes of a plain word stand at the front.
pub(crate) fn plain_len(text: &[u8]) -> usize
    ensures within { result ≤ length text.now }
    ensures plain { IsUpTo ends_plain (take result text.now) (drop result text.now) }
{
    for at in 0..text.len() {
        if ends_plain(behind(text, at)) {
            return at;
        }
    }
    text.len()
}

/// How many bytes stand before the first line feed, or before the end of the text.
pub(crate) fn line_len(text: &[u8]) -> usize
    ensures within { result ≤ length text.now }
    ensures line { IsUpTo ends_line (take result text.now) (drop result text.now) }
{
    for (at, byte) in text.iter().enumerate() {
        if *byte == b'\n' {
            return at;
        }
    }
    text.len()
}

/// Whether `*/` stands at the front, the end of a block comment.
#[inline(always)]
fn ends_block(text: &[u8]) -> bool
    ensures { result ≡ ends_block text.now }
{
    text.len() >= 2 && text[0] == b'*' && text[1] == b'/'
}

/// How many bytes stand before the first `*/`, if there is one.
pub(crate) fn block_len(text: &[u8]) -> Option<usize>
    ensures within { IfSome result (λ len. len + 2 ≤ length text.now) }
    ensures block { IfSome result (λ len. IsUpTo ends_block (take len text.now) (drop len text.now)
        × (drop len text.now ≡ 42 ∷ 47 ∷ drop (len + 2) text.now)) }
    ensures none { IfNone result (NeverEnds ends_block text.now) }
{
    for at in 0..text.len() {
        if ends_block(behind(text, at)) {
            return Some(at);
        }
    }
    None
}
