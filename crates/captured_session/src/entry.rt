//! What is known of an entry of an ODT.

use crate::element::Element;

/// What is known of an entry of an ODT.
#[derive(Clone, Copy)]
pub enum Entry {
    /// Nothing.
    Open,
    /// It was allocated, and not written.
    Unwritten,
    /// It is this one.
    Is(Element),
}
