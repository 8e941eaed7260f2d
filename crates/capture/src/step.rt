//! What a reader made of bytes.

use crate::captured::Captured;

/// What a reader made of bytes.
#[derive(Clone, Copy)]
pub enum Step<'b> {
    /// The first bytes, so many, hold a packet. They are taken.
    Packet(usize, Captured<'b>),
    /// The first bytes, so many, are a header or a block without a packet. They are taken.
    Passed(usize),
    /// So many bytes are wanted at least, more than there are. Nothing is taken.
    Wants(usize),
}
