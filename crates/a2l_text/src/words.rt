//! An A2L text is read word by word, over the blanks and comments between words.
ghost use Rattle.std.specs.Prelude.{◌≡◌, ◌<◌, ◌++◌, [], length};
ghost use Rattle.std.specs.Prelude.{IfOk, IfErr, OnErr, MatchOption, IfSome, IfNone};
ghost use Rattle.a2l_text.specs.Words.{Leads, Ends, without_mark};
ghost use Rattle.a2l_text.specs.Faults.{Stalls};
ghost use Rattle.a2l_text.specs.Tokens.{spelling};
ghost use Rattle.a2l_text.specs.TokenOf.{token_of};
ghost use Rattle.a2l_text.specs.State.{rest_of, from_of};

use crate::fault::WordFault;
use crate::gap::gap_len;
use crate::kind::{Kind, kind_at};
use crate::split::behind;
use crate::token::{plain_word, quoted_word};
use crate::word::Word;
use std::marker::Model;

/// A text that is read word by word (ASAM MCD-2 MC, the description file). Blanks are space, tab,
/// carriage return, line feed, form feed and vertical tab. A comment is `/* .. */`, or `//` up to
/// the end of its line. Between quotes, a doubled quote and a backslash with the byte behind it
/// are part of the text. A plain word is the longest run of other bytes in which no comment begins.
#[derive(Drop)]
pub struct Words<'a> {
    text: &'a [u8],
    start: usize,
    next: usize,
}

impl<'a> Model for Words<'a> {
    ghost use Rattle.std.specs.Prelude.{◌≤◌, length};
    ghost use Rattle.a2l_text.specs.State.{WordsState};

    ghost Value = { WordsState };

    ghost view = { λ w. record { text = w.text.now; start = w.start; next = w.next } };

    ghost invariant = { λ w. (w.start ≤ length w.text.now) × (w.next ≤ length w.text.now) };
}

impl<'a> Words<'a> {
    /// Before the first word of a text. A byte order mark of UTF-8 at its front is passed over.
    pub fn new(text: &'a [u8]) -> Words<'a>
        ensures text { result.text ≡ text.now }
        ensures rest { rest_of result ≡ without_mark text.now }
        ensures start { from_of result ≡ rest_of result }
    {
        let mark = if text.starts_with(b"\xef\xbb\xbf") {
            3
        } else {
            0
        };
        Words {
            text,
            start: mark,
            next: mark,
        }
    }

    /// The next word, or `None` at the end of the text. After an error nothing more is read, and
    /// each further call gives the same error.
    pub fn next_word(&mut self) -> Result<Option<Word<'a>>, WordFault>
        ensures text { self.new.text ≡ self.old.text }

        // Which word it is, and what is left. `None`: there is none.
        ensures next { IfOk result (λ found. MatchOption found (Ends (rest_of self.old))
            (λ word. Leads (rest_of self.old) (token_of word) (rest_of self.new))) }
        ensures start { IfOk result (λ found. IfSome found
            (λ word. from_of self.new ≡ spelling (token_of word) ++ rest_of self.new)) }
        ensures shorter { IfOk result (λ found. IfSome found
            (λ word. length (rest_of self.new) < length (rest_of self.old))) }
        ensures ended { IfOk result (λ found. IfNone found
            ((from_of self.new ≡ []) × (rest_of self.new ≡ rest_of self.old))) }

        ensures fault { IfErr result (λ fault. Stalls (rest_of self.old) fault (from_of self.new)) }
        ensures stays { OnErr result (rest_of self.new ≡ rest_of self.old) }
    {
        let text = self.text;
        let rest = behind(text, self.next);
        let len = match gap_len(rest) {
            Ok(len) => len,
            Err(at) => {
                self.start = self.next + at;
                return Err(WordFault::OpenComment);
            }
        };
        self.start = self.next + len;
        let text = behind(rest, len);
        let found = match kind_at(text) {
            Kind::Plain => plain_word(text),
            Kind::Text => quoted_word(text).ok_or(WordFault::OpenText)?,
            _ => return Ok(None),
        };
        self.next = self.start + found.len;
        Ok(Some(found.word))
    }

    /// The offset of the first byte of the newest word or fault, in bytes from the front of the
    /// text. Before the first word it is where reading begins.
    pub fn start(&self) -> usize
        ensures { result ≡ self.now.start }
    {
        self.start
    }
}
