//! The identification field of packets.

/// How packets say of which ODT they are (ASAM MCD-1 XCP, protocol layer, identification field).
#[derive(Clone, Copy, Debug, PartialEq, Eq)]
pub enum IdField {
    /// By an absolute ODT number.
    Absolute,
    /// By a relative ODT number, and the list's number in a byte.
    RelativeByte,
    /// By a relative ODT number, and the list's number in a word.
    RelativeWord,
    /// The same, with a fill byte between them.
    RelativeWordAligned,
}
