//! Reads the slices of memory in the words of a line.
ghost use Rattle.std.specs.Prelude.{◌≡◌, IfOk, map, option_map, vec_items};
ghost use Rattle.run_file.specs.StepOf.{words_of};
ghost use Rattle.session_file.specs.LineOf.{slice_of, slices_of};

use run_file::{bytes_of, cut};
use std::alloc::{AllocError, Global};

/// The slices of the words of a text, one for each, in their order; none if a word is none.
pub fn slices_of(alloc: Global, text: &str) -> Result<Option<Vec<Vec<u8>>>, AllocError>
    ensures { IfOk result (λ slices.
        option_map (λ s. map vec_items s.items) slices ≡ slices_of (words_of text.now)) }
{
    let mut slices = Vec::new(alloc);
    let mut rest = text;
    while let Some((word, behind)) = cut(rest) {
        let Some(slice) = slice_of(alloc, word)? else {
            return Ok(None);
        };
        slices.push(slice)?;
        rest = behind;
    }
    let Some(last) = slice_of(alloc, rest)? else {
        return Ok(None);
    };
    slices.push(last)?;
    Ok(Some(slices))
}

/// The slice of a word: the bytes of a segment, or none of one that isn't there.
fn slice_of(alloc: Global, word: &str) -> Result<Option<Vec<u8>>, AllocError>
    ensures { IfOk result (λ slice. option_map vec_items slice ≡ slice_of word.now) }
{
    if word == "-" {
        return Ok(Some(Vec::new(alloc)));
    }
    if word.is_empty() {
        return Ok(None);
    }
    bytes_of(alloc, word)
}
