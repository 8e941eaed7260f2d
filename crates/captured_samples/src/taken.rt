//! What became of a packet.

/// What became of a packet.
#[derive(Clone, Copy, Debug, PartialEq, Eq)]
pub enum Taken {
    /// It isn't one of the list.
    Other,
    /// It is out of turn, or too short.
    LeftOut,
    /// It is one of a sample.
    Part,
    /// It is the last of a sample.
    Whole,
}
