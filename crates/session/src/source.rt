//! What UPLOAD reads.
/// A text of the profile that UPLOAD reads.
#[derive(Clone, Copy)]
pub(crate) enum TextOf {
    /// The name of an event channel.
    Event(u16),
    /// GET_ID 1: the name of the A2L file.
    A2lName,
    /// GET_ID 4: the A2L file.
    A2l,
    /// GET_ID 5: the EPK.
    Epk,
}

/// What UPLOAD reads next.
#[derive(Clone, Copy)]
pub(crate) enum Source {
    /// Nothing was named.
    Nothing,
    /// A text, of which so many bytes were read.
    Text { text: TextOf, read: usize },
    /// The memory transfer address: memory from there on. Behind the last address it is 2^32.
    Memory { extension: u8, address: usize },
}
