//! Frames that were laid out together.

/// The frames of a sample or of a reply that wait, and where they stand: in so many blocks, from
/// that byte of the first on.
#[derive(Clone, Copy, Debug, PartialEq, Eq)]
pub struct Unit<O> {
    /// Where they are from.
    pub origin: O,
    /// The blocks that they stand in.
    pub blocks: usize,
    /// The bytes before them.
    pub at: usize,
    /// Their bytes.
    pub len: usize,
    /// How many they are.
    pub count: usize,
}
