//! Where the bytes of a capture stand.

/// Where the bytes of a capture stand.
#[derive(Clone, Copy)]
pub enum CaptureBytes<'a> {
    /// In the file of this name.
    File(&'a str),
    /// Here: they came on standard input.
    Held(&'a [u8]),
}
