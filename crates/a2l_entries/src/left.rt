//! The words of a block are taken from the front.
ghost use Rattle.a2l_entries.specs.Gives.{Gives};
ghost use Rattle.a2l_entries.specs.Said.{token_at, tokens_of, first_of, behind};

use crate::awaited::Awaited;
use crate::entry_fault::EntryFault;
use a2l_text::Located;

/// The words of a block that aren't read yet.
#[derive(Clone, Copy)]
pub struct Left<'w, 'a> {
    pub words: &'w [Located<'a>],
    /// The offset of the block's end.
    pub end: usize,
}

impl<'w, 'a> Left<'w, 'a> {
    /// The first word, and those behind it.
    pub fn first(self, awaited: Awaited) -> Result<(Located<'a>, Left<'w, 'a>), EntryFault>
        ensures { Gives (λ x. (token_at x.0, tokens_of x.1)) result
            (first_of (tokens_of self.entry)) }
    {
        match self.words.split_first() {
            Some((first, words)) => Ok((
                *first,
                Left {
                    words,
                    end: self.end,
                },
            )),
            None => Err(EntryFault::Awaited(self.end, awaited)),
        }
    }

    /// The words behind the first `count`.
    pub fn behind(self, count: usize) -> Result<Left<'w, 'a>, EntryFault>
        ensures { Gives (λ x. tokens_of x) result (behind count (tokens_of self.entry)) }
    {
        if self.words.len() < count {
            return Err(EntryFault::Awaited(self.end, Awaited::Argument));
        }
        let (_, words) = self.words.split_at(count);
        Ok(Left {
            words,
            end: self.end,
        })
    }
}
