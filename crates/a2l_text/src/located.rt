//! Words with their offsets, so that a fault can say where it lies.
use crate::Word;

/// A word of a text, and where it stands.
#[derive(Clone, Copy)]
pub struct Located<'a> {
    pub word: Word<'a>,
    /// The offset of its first byte in the text, in bytes.
    pub at: usize,
}
