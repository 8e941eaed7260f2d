//! The key that a mistyped one may stand for.
use std::alloc::{AllocError, Global};
use strsim::levenshtein;

/// The first of some keys that is nearest to a word, by letters put in, taken out or exchanged;
/// nothing if there is none.
pub fn near_key<'k>(alloc: Global, word: &str, keys: &[&'k str]) -> Result<&'k str, AllocError> {
    let mut nearest = "";
    let mut least = usize::MAX;
    for key in keys {
        let edits = levenshtein(alloc, word, key)?;
        if edits < least {
            nearest = *key;
            least = edits;
        }
    }
    Ok(nearest)
}
