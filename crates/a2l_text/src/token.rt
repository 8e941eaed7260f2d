//! The word at the front of a text, and how many bytes it has there.
ghost use Rattle.std.specs.Prelude.{◌≡◌, ◌<◌, ◌≤◌, ◌++◌, drop, length, IfSome, IfNone};
ghost use Rattle.a2l_text.specs.Kinds.{kind_of};
ghost use Rattle.a2l_text.specs.Faults.{IsFault};
ghost use Rattle.a2l_text.specs.Tokens.{unquoted, spelling, IsWord};
ghost use Rattle.a2l_text.specs.TokenOf.{token_of};
ghost use Rattle.a2l_text.specs.declared.kind.Kind.TheVariants.{Text as TextKind};
ghost use Rattle.a2l_text.specs.declared.kind.Kind.TheVariants.{Plain as PlainKind};

use crate::fault::WordFault;
use crate::fronts::plain_len;
use crate::in_text::in_text_len;
use crate::split::{before, behind};
use crate::word::Word;

/// A word, and how many bytes it has in its text.
#[derive(Clone, Copy)]
pub(crate) struct Found<'a> {
    pub(crate) word: Word<'a>,
    pub(crate) len: usize,
}

/// The word of a run of bytes.
#[tactic(auto, unfolding(crate::specs::Tokens::unquoted))]
fn unquoted(run: &[u8]) -> Word<'_>
    ensures { token_of result ≡ unquoted run.now }
{
    if run == b"/begin".as_slice() {
        return Word::Begin;
    }
    if run == b"/end".as_slice() {
        return Word::End;
    }
    if run == b"/include".as_slice() {
        return Word::Include;
    }
    Word::Plain(run)
}

/// The word at the front, where a plain byte stands.
pub(crate) fn plain_word(text: &[u8]) -> Found<'_>
    requires { kind_of text.now ≡ PlainKind }
    ensures not_empty { 0 < result.len }
    ensures within { result.len ≤ length text.now }
    ensures spelled { text.now ≡ spelling (token_of result.word) ++ drop result.len text.now }
    ensures valid { IsWord (token_of result.word) (drop result.len text.now) }
{
    let len = plain_len(text);
    Found {
        word: unquoted(before(text, len)),
        len,
    }
}

/// The word at the front, where a quote stands. `None`: it has no closing quote.
pub(crate) fn quoted_word(text: &[u8]) -> Option<Found<'_>>
    requires { kind_of text.now ≡ TextKind }
    ensures not_empty { IfSome result (λ found. 0 < found.len) }
    ensures within { IfSome result (λ found. found.len ≤ length text.now) }
    ensures spelled { IfSome result (λ found. text.now
        ≡ spelling (token_of found.word) ++ drop found.len text.now) }
    ensures valid { IfSome result (λ found.
        IsWord (token_of found.word) (drop found.len text.now)) }
    ensures fault { IfNone result (IsFault WordFault.OpenText text.now) }
{
    let inside = behind(text, 1);
    let len = in_text_len(inside)?;
    Some(Found {
        word: Word::Quoted(before(inside, len)),
        len: len + 2,
    })
}
