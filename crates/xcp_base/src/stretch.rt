//! Neighbouring spans of one size in one segment, which are copied in one loop.
/// So many spans, one behind another, that have the same size, in bytes, and lie in one segment. A
/// span is kept as its offset: where it begins in that segment.
#[derive(Clone, Copy, Debug, PartialEq, Eq)]
pub struct Stretch {
    /// The segment in which they lie.
    pub segment: u8,
    /// Where that segment begins in an image of all memory.
    pub start: usize,
    pub size: usize,
    pub count: usize,
}
