//! Where a recording breaks off, and how this place is written.
use crate::byte_text::ByteText;
use std::alloc::AllocError;

/// A place at which a recording is read no further.
#[derive(Clone, Copy)]
pub struct Stop<'a> {
    /// The name of the recording.
    pub name: &'a str,
    /// The bytes before the place.
    pub byte: u64,
    /// The frames before the place.
    pub frame: u64,
    /// The bytes from the place on, as far as they are known.
    pub rest: &'a [u8],
}

/// Writes a place, and the first `len` bytes that stand there.
pub fn write_stop(text: &mut String, stop: Stop<'_>, len: usize) -> Result<(), AllocError> {
    let Stop {
        name,
        byte,
        frame,
        rest,
    } = stop;
    write!(text, "{name}, byte {byte}, frame {frame}: ")?;
    if rest.is_empty() {
        return text.push_str("the recording ends");
    }
    let bytes = ByteText {
        bytes: front_of(rest, len),
    };
    write!(text, "{bytes}")
}

/// The first `len` bytes of some; all of them if there are fewer.
pub fn front_of(bytes: &[u8], len: usize) -> &[u8] {
    if bytes.len() < len {
        return bytes;
    }
    &bytes[..len]
}
