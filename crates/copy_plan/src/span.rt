//! Where bytes that are copied together begin and end in an image of all memory.
/// Bytes that lie side by side and are copied in one go: from `start` up to `end` in an image of
/// all memory, in which the segments are laid end to end.
#[derive(Clone, Copy)]
pub struct Span {
    pub start: usize,
    pub end: usize,
}
