//! Where a variable lies.

/// The place of some bytes: the number of their segment, and how many bytes of it stand before
/// them.
#[derive(Clone, Copy, Debug, PartialEq, Eq)]
pub struct Place {
    pub segment: u8,
    pub start: usize,
}
