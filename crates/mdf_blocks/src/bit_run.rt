//! Bits one beside another.
/// Bits of a number, one beside another.
#[derive(Clone, Copy)]
pub(crate) struct BitRun {
    /// The place of the lowest.
    pub low: u32,
    /// How many they are.
    pub count: u32,
}
