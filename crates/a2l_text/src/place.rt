//! The line and the column of an offset in a text.
ghost use Rattle.std.specs.Prelude.{◌≡◌, length};
ghost use Rattle.std.specs.List.{after_last};
ghost use Rattle.a2l_text.specs.Places.{place_at, is_line_feed};

use crate::split::before;

/// Where something begins in a text.
#[derive(Clone, Copy, Debug, PartialEq, Eq)]
pub struct Place {
    /// The line, from 1.
    pub line: u64,
    /// The byte in its line, from 1.
    pub column: u64,
}

/// The place of the byte at an offset, in bytes from the front of the text: one more than the line
/// feeds before it, and than the bytes behind the last of them. An offset behind the end counts as
/// the end.
pub fn place_of(text: &[u8], offset: usize) -> Place
    ensures { result ≡ place_at text.now offset }
{
    let before = before(text, offset.min(text.len()));
    let line_feeds = before.iter().filter(|byte| **byte == b'\n').count();
    Place {
        line: 1 + line_feeds as u64,
        column: 1 + len_behind_line_feed(before) as u64,
    }
}

/// How many bytes stand behind the last line feed, or all if there is none.
fn len_behind_line_feed(text: &[u8]) -> usize
    ensures { result ≡ length (after_last is_line_feed text.now) }
{
    let mut at = text.len();
    while at > 0 && text[at - 1] != b'\n' {
        at -= 1;
    }
    text.len() - at
}
