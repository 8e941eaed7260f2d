//! What begins at a place: a blank, a comment, a text or a plain word.
ghost use Rattle.std.specs.Prelude.{◌≡◌};
ghost use Rattle.a2l_text.specs.Kinds.{is_blank, kind_of, kind_of_slash};

/// What begins at a place of a text.
#[derive(Clone, Copy)]
pub(crate) enum Kind {
    /// The text ends there.
    Nothing,
    /// One blank byte.
    Blank,
    /// A comment up to the end of its line.
    LineComment,
    /// A comment up to `*/`.
    BlockComment,
    /// A text between quotes.
    Text,
    /// A byte of a plain word.
    Plain,
}

#[inline(always)]
fn is_blank(byte: u8) -> bool
    ensures { result ≡ is_blank byte }
{
    byte == b' ' || (b'\t' <= byte && byte <= b'\r')
}

#[inline(always)]
fn kind_of_slash(behind: &[u8]) -> Kind
    ensures { result ≡ kind_of_slash behind.now }
{
    let Some((byte, _)) = behind.split_first() else {
        return Kind::Plain;
    };
    if *byte == b'/' {
        return Kind::LineComment;
    }
    if *byte == b'*' {
        return Kind::BlockComment;
    }
    Kind::Plain
}

/// What begins with the first byte of the text.
#[inline(always)]
#[tactic(auto, unfolding(crate::specs::Kinds::kind_of))]
pub(crate) fn kind_at(text: &[u8]) -> Kind
    ensures { result ≡ kind_of text.now }
{
    let Some((byte, behind)) = text.split_first() else {
        return Kind::Nothing;
    };
    if is_blank(*byte) {
        return Kind::Blank;
    }
    if *byte == b'"' {
        return Kind::Text;
    }
    if *byte == b'/' {
        return kind_of_slash(behind);
    }
    Kind::Plain
}
