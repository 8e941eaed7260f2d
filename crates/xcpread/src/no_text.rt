//! Files that are given as A2L files and are no text.
ghost use Rattle.std.specs.Prelude.{◌≡◌};
ghost use Rattle.xcpread.specs.NoTexts.{has_zero, is_utf16, no_text};

use thiserror::Error;

/// Why the bytes of a file are no text in UTF-8 or ISO 8859-1.
#[derive(Clone, Copy, Debug, PartialEq, Eq, Error)]
pub enum NoText {
    #[error("the file is empty")]
    Empty,
    #[error("the file is in UTF-16: write it in UTF-8 or ISO 8859-1")]
    Utf16,
    #[error("the file is no text: it has a byte 0")]
    Zero,
}

/// Why bytes are no text, if they aren't.
pub fn no_text(bytes: &[u8]) -> Option<NoText>
    ensures { result ≡ no_text bytes.now }
{
    if bytes.is_empty() {
        return Some(NoText::Empty);
    }
    if is_utf16(bytes) {
        return Some(NoText::Utf16);
    }
    if has_zero(bytes) {
        return Some(NoText::Zero);
    }
    None
}

/// Whether bytes begin with a mark of UTF-16.
fn is_utf16(bytes: &[u8]) -> bool
    ensures { result ≡ is_utf16 bytes.now }
{
    bytes.starts_with(&[0xff, 0xfe]) || bytes.starts_with(&[0xfe, 0xff])
}

/// Whether there is a byte 0.
fn has_zero(bytes: &[u8]) -> bool
    ensures { result ≡ has_zero bytes.now }
{
    bytes.iter().any(|byte| *byte == 0)
}
