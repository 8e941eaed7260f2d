//! Laws of the definitions: each is the contract of a function that does nothing.
ghost use Rattle.segments.specs.Laws.{AtMostOne, ShowsMemory};

/// Bytes, at least one, lie in one segment at most.
pub fn bytes_lie_in_one_segment_at_most()
    ensures { AtMostOne }
{}

/// At the place of bytes that an event channel may read, an image of memory has what reading them
/// gives: nothing else of memory decides what a trigger copies.
pub fn an_image_shows_memory()
    ensures { ShowsMemory }
{}
