//! The kinds of words in an A2L text.
/// A word of an A2L text (ASAM MCD-2 MC, the description file). Between two words there are blanks
/// and comments, or nothing.
#[derive(Clone, Copy, Debug, PartialEq, Eq)]
pub enum Word<'a> {
    /// `/begin`, which opens a block.
    Begin,
    /// `/end`, which closes a block.
    End,
    /// `/include`, before the name of another file.
    Include,
    /// A keyword, an identifier or a number: its bytes.
    Plain(&'a [u8]),
    /// A text: the bytes between its quotes, with the escapes as they stand.
    Quoted(&'a [u8]),
}
