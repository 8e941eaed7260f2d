//! Where a text between quotes ends.
ghost use Rattle.std.specs.Prelude.{◌≡◌, ◌<◌, ◌+◌, [], ◌∷◌, take, drop, length, false};
ghost use Rattle.std.specs.Prelude.{IfSome, IfNone};
ghost use Rattle.a2l_text.specs.Letters.{letter_of};
ghost use Rattle.a2l_text.specs.Tokens.{IsInText, begins_with_quote};
ghost use Rattle.a2l_text.specs.Faults.{IsOpenText};

use crate::split::behind;

/// What stands at a place between two quotes.
#[derive(Clone, Copy)]
pub(crate) enum Letter {
    /// A byte that stands for itself.
    Own,
    /// Two bytes that stand together: a doubled quote, or a backslash and what it takes along.
    Pair,
    /// The closing quote.
    Closing,
    /// A backslash at the end of the text.
    Backslash,
}

#[inline(always)]
fn letter_at(text: &[u8]) -> Letter
    requires { 0 < length text.now }
    ensures { result ≡ letter_of text.now }
{
    let first = text[0];
    if text.len() < 2 {
        return last_letter(first);
    }
    if first == b'\\' {
        return Letter::Pair;
    }
    if first != b'"' {
        return Letter::Own;
    }
    let doubled = text[1] == b'"';
    if doubled {
        return Letter::Pair;
    }
    Letter::Closing
}

fn last_letter(byte: u8) -> Letter
    ensures { result ≡ letter_of (byte ∷ []) }
{
    match byte {
        b'\\' => Letter::Backslash,
        b'"' => Letter::Closing,
        _ => Letter::Own,
    }
}

/// How many bytes stand before the closing quote, if there is one. The opening one stands before
/// the text.
pub(crate) fn in_text_len(text: &[u8]) -> Option<usize>
    ensures within { IfSome result (λ len. len < length text.now) }
    ensures inside { IfSome result (λ len. IsInText (take len text.now)) }
    ensures closed { IfSome result (λ len. drop len text.now ≡ 34 ∷ drop (len + 1) text.now) }
    ensures alone { IfSome result (λ len. begins_with_quote (drop (len + 1) text.now) ≡ false) }
    ensures open { IfNone result (IsOpenText text.now) }
{
    let mut at = 0;
    while at < text.len() {
        match letter_at(behind(text, at)) {
            Letter::Own => at += 1,
            Letter::Pair => at += 2,
            Letter::Closing => return Some(at),
            Letter::Backslash => return None,
        }
    }
    None
}
