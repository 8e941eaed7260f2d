//! The memory of which a trigger's samples are copied.
ghost use Rattle.std.specs.Prelude.{◌≡◌, drop};
ghost use Rattle.xcp_base.specs.Copied.{bytes_in};

use crate::stretch::Stretch;

/// Memory as a trigger hands it in.
#[derive(Clone, Copy, Debug)]
pub enum MemoryView<'a> {
    /// One image of it all.
    Image(&'a [u8]),
    /// A slice for each segment, in their order.
    Parts(&'a [&'a [u8]]),
}

impl<'a> MemoryView<'a> {
    /// The bytes in which a stretch's spans lie, from where its segment begins: none if there is no
    /// slice for its segment, or if the image ends before it.
    #[inline]
    pub(crate) fn part(&self, stretch: &Stretch) -> &'a [u8]
        ensures bytes { result.now ≡ bytes_in self.now stretch.now }
    {
        match self {
            MemoryView::Image(image) => bytes_from(image, stretch.start),
            MemoryView::Parts(parts) => match parts.get(stretch.segment as usize) {
                Some(part) => part,
                None => &[],
            },
        }
    }
}

/// The bytes from a place on: none where they end before it.
#[inline]
fn bytes_from(bytes: &[u8], start: usize) -> &[u8]
    ensures { result.now ≡ drop start bytes.now }
{
    if start > bytes.len() {
        return &[];
    }
    &bytes[start..]
}
