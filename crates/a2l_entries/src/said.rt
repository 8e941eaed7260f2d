//! Names, texts and numbers are read off single words, or refused with their place.
ghost use Rattle.std.specs.Prelude.{◌≡◌, IfOk, option_copied, string_bytes};
ghost use Rattle.a2l_entries.specs.Gives.{Gives};
ghost use Rattle.a2l_entries.specs.Said.{token_at, tokens_of, plain_said, name_said, text_said};
ghost use Rattle.a2l_entries.specs.Said.{kept, number_said, integer_said, name_first, text_first};
ghost use Rattle.a2l_entries.specs.Said.{behind_text, number_first, identifier_first};
ghost use Rattle.a2l_entries.specs.Said.{identifier_said, kept_or_empty};

use crate::awaited::Awaited;
use crate::entry_fault::EntryFault;
use crate::left::Left;
use crate::refused::Refused;
use a2l_text::{Located, Word, integer_of, number_of, text_of};
use std::alloc::{AllocError, Global};

/// How many bytes a name or a text that is kept may have.
pub const MAX_LENGTH: usize = 1024;

/// A name, of which the description has the bytes.
#[derive(Drop)]
pub struct Reference {
    pub name: String,
    /// Where it stands, in bytes.
    pub at: usize,
}

/// The bytes of a word that is no text, if it is none.
pub fn plain_bytes<'a>(word: Located<'a>) -> Option<&'a [u8]>
    ensures { option_copied result ≡ plain_said (token_at word.entry) }
{
    match word.word {
        Word::Plain(bytes) => Some(bytes),
        _ => None,
    }
}

/// The bytes of a word that is no text.
pub fn plain_in<'a>(word: Located<'a>, awaited: Awaited) -> Result<&'a [u8], EntryFault>
    ensures { Gives (λ x. x.now) result (plain_said (token_at word.entry)) }
{
    match word.word {
        Word::Plain(bytes) => Ok(bytes),
        _ => Err(EntryFault::Awaited(word.at, awaited)),
    }
}

/// A name, of at most 1024 bytes.
#[tactic(auto, unfolding(crate::specs::Said::name_said))]
pub fn name_in(alloc: Global, word: Located<'_>) -> Result<String, EntryFault>
    ensures { Gives (λ s. string_bytes s) result (name_said (token_at word.entry)) }
{
    let bytes = plain_in(word, Awaited::Name)?;
    kept(alloc, bytes, word.at)
}

/// A text, of at most 1024 bytes.
#[tactic(auto, unfolding(crate::specs::Said::text_said))]
pub fn text_in(alloc: Global, word: Located<'_>) -> Result<String, EntryFault>
    ensures { Gives (λ s. string_bytes s) result (text_said (token_at word.entry)) }
{
    match word.word {
        Word::Quoted(bytes) => kept(alloc, bytes, word.at),
        _ => Err(EntryFault::Awaited(word.at, Awaited::Text)),
    }
}

/// What bytes say, if they are at most 1024.
#[tactic(auto, unfolding(crate::specs::Said::kept))]
fn kept(alloc: Global, bytes: &[u8], at: usize) -> Result<String, EntryFault>
    ensures { Gives (λ s. string_bytes s) result (kept bytes.now) }
{
    if bytes.len() > MAX_LENGTH {
        return Err(EntryFault::Refused(at, Refused::TooLong));
    }
    Ok(text_of(alloc, bytes)?)
}

/// A long identifier: nothing, if it has more than 1024 bytes.
#[tactic(auto, unfolding(crate::specs::Said::identifier_said))]
fn identifier_in(alloc: Global, word: Located<'_>) -> Result<String, EntryFault>
    ensures { Gives (λ s. string_bytes s) result (identifier_said (token_at word.entry)) }
{
    match word.word {
        Word::Quoted(bytes) => Ok(kept_or_empty(alloc, bytes)?),
        _ => Err(EntryFault::Awaited(word.at, Awaited::Text)),
    }
}

/// What bytes say, or nothing, if they are more than 1024.
#[tactic(auto, unfolding(crate::specs::Said::kept))]
fn kept_or_empty(alloc: Global, bytes: &[u8]) -> Result<String, AllocError>
    ensures { IfOk result (λ s. string_bytes s ≡ kept_or_empty bytes.now) }
{
    if bytes.len() > MAX_LENGTH {
        return Ok(String::new(alloc));
    }
    Ok(text_of(alloc, bytes)?)
}

/// A finite number.
#[tactic(auto, unfolding(crate::specs::Said::number_said))]
pub fn number_in(word: Located<'_>) -> Result<f64, EntryFault>
    ensures { Gives (λ x. x) result (number_said (token_at word.entry)) }
{
    let bytes = plain_in(word, Awaited::Number)?;
    match number_of(bytes) {
        Some(number) => Ok(number),
        None => Err(EntryFault::Awaited(word.at, Awaited::Number)),
    }
}

/// The whole number below 2^64 that a word says, if it says one.
#[tactic(auto, unfolding(crate::specs::Said::integer_said))]
pub fn whole_number(word: Located<'_>) -> Option<u64>
    ensures { result ≡ integer_said (token_at word.entry) }
{
    let bytes = plain_bytes(word)?;
    integer_of(bytes)
}

/// A whole number below 2^64.
pub fn integer_in(word: Located<'_>) -> Result<u64, EntryFault>
    ensures { Gives (λ x. x) result (integer_said (token_at word.entry)) }
{
    match whole_number(word) {
        Some(number) => Ok(number),
        None => Err(EntryFault::Awaited(word.at, Awaited::Integer)),
    }
}

impl<'w, 'a> Left<'w, 'a> {
    /// The name that comes first, and what is behind it.
    #[tactic(auto, unfolding(crate::specs::Said::name_first))]
    pub fn name(self, alloc: Global) -> Result<(String, Left<'w, 'a>), EntryFault>
        ensures { Gives (λ x. (string_bytes x.0, tokens_of x.1)) result
            (name_first (tokens_of self.entry)) }
    {
        let (word, left) = self.first(Awaited::Name)?;
        Ok((name_in(alloc, word)?, left))
    }

    /// The text that comes first.
    #[tactic(auto, unfolding(crate::specs::Said::text_first))]
    pub fn text(self, alloc: Global) -> Result<(String, Left<'w, 'a>), EntryFault>
        ensures { Gives (λ x. (string_bytes x.0, tokens_of x.1)) result
            (text_first (tokens_of self.entry)) }
    {
        let (word, left) = self.first(Awaited::Text)?;
        Ok((text_in(alloc, word)?, left))
    }

    /// The long identifier that comes first: nothing, if it has more than 1024 bytes.
    #[tactic(auto, unfolding(crate::specs::Said::identifier_first))]
    pub fn identifier(self, alloc: Global) -> Result<(String, Left<'w, 'a>), EntryFault>
        ensures { Gives (λ x. (string_bytes x.0, tokens_of x.1)) result
            (identifier_first (tokens_of self.entry)) }
    {
        let (word, left) = self.first(Awaited::Text)?;
        Ok((identifier_in(alloc, word)?, left))
    }

    /// What is behind the text that comes first, however long it is.
    #[tactic(auto, unfolding(crate::specs::Said::behind_text))]
    pub fn behind_text(self) -> Result<Left<'w, 'a>, EntryFault>
        ensures { Gives (λ x. tokens_of x) result (behind_text (tokens_of self.entry)) }
    {
        let (word, left) = self.first(Awaited::Text)?;
        match word.word {
            Word::Quoted(_) => Ok(left),
            _ => Err(EntryFault::Awaited(word.at, Awaited::Text)),
        }
    }

    /// The number that comes first.
    #[tactic(auto, unfolding(crate::specs::Said::number_first))]
    pub fn number(self) -> Result<(f64, Left<'w, 'a>), EntryFault>
        ensures { Gives (λ x. (x.0, tokens_of x.1)) result (number_first (tokens_of self.entry)) }
    {
        let (word, left) = self.first(Awaited::Number)?;
        Ok((number_in(word)?, left))
    }
}
