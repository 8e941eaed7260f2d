//! All memory as one image: where segments, and bytes of them, stand in it.
ghost use Rattle.std.specs.Prelude.{◌≡◌, ℕ, ◌<◌, ◌∷◌, [], true, false, IfSome, IsNone, length};
ghost use Rattle.segments.specs.Image.{HaveImage, image_len, image_place, image_segments};
ghost use Rattle.segments.specs.Image.{image_start, lies_in, readable_in};
ghost use Rattle.segments.specs.Places.{HoldsAt};

use crate::limits::MAX_READERS;
use crate::segment::Segment;

/// One segment of so many bytes, that every event channel may read.
pub fn image_segment(len: usize) -> Segment
    ensures { result ∷ [] ≡ image_segments len }
{
    Segment {
        extension: 0,
        base: 0,
        len,
        events: 0xFFFF,
    }
}

/// The length of an image of segments, which stand in it end to end with one byte between two.
pub fn image_len(segments: &[Segment]) -> usize
    requires { HaveImage segments.now }
    ensures { result ≡ image_len segments.now }
{
    if segments.is_empty() {
        return 0;
    }
    let last = segments.len() - 1;
    image_start(segments, last) + segments[last].len
}

/// Where a segment begins in an image.
pub fn image_start(segments: &[Segment], segment: usize) -> usize
    requires image { HaveImage segments.now }
    requires there { segment < length segments.now }
    ensures { result ≡ image_start segments.now segment }
{
    let mut start = 0;
    for i in 0..segment {
        start += segments[i].len + 1;
    }
    start
}

/// The place in an image of so many bytes that an event channel may read; `None` exactly if they
/// lie in no segment that it may read.
pub fn image_place(
    segments: &[Segment],
    channel: u8,
    extension: u8,
    address: usize,
    size: usize,
) -> Option<usize>
    requires image { HaveImage segments.now }
    requires channel { channel < MAX_READERS }
    ensures value { result ≡ image_place channel segments.now extension address size }
{
    let segment = readable_in(segments, channel, extension, address, size)?;
    Some(image_start(segments, segment) + (address - segments[segment].base as usize))
}

/// The number of the segment in which so many bytes lie, if an event channel may read it.
fn readable_in(
    segments: &[Segment],
    channel: u8,
    extension: u8,
    address: usize,
    size: usize,
) -> Option<usize>
    requires channel { channel < MAX_READERS }
    ensures value { result ≡ readable_in channel segments.now extension address size }
    ensures holds { IfSome result (HoldsAt segments.now extension address size) }
{
    segments.iter().position(|segment| {
        segment.may_read(channel) && segment.holds(extension, address, size)
    })
}

/// The number of a segment that an event channel may read in which bytes of an image lie.
pub fn segment_at(segments: &[Segment], channel: u8, start: usize, end: usize) -> Option<usize>
    requires image { HaveImage segments.now }
    requires channel { channel < MAX_READERS }
    ensures some { IfSome result (λ i. lies_in channel segments.now start end i ≡ true) }
    ensures there { IfSome result (λ i. i < length segments.now) }
    ensures none { IsNone result → (i : ℕ) → lies_in channel segments.now start end i ≡ false }
{
    for i in 0..segments.len() {
        if lies_in(segments, channel, start, end, i) {
            return Some(i);
        }
    }
    None
}

/// Whether bytes of an image lie in a segment that an event channel may read.
fn lies_in(segments: &[Segment], channel: u8, start: usize, end: usize, i: usize) -> bool
    requires image { HaveImage segments.now }
    requires channel { channel < MAX_READERS }
    requires there { i < length segments.now }
    ensures { result ≡ lies_in channel segments.now start end i }
{
    let begins = image_start(segments, i);
    let ends = begins + segments[i].len;
    segments[i].may_read(channel) && begins <= start && end <= ends
}
