//! What came of a command.

/// What came of a command.
#[derive(Clone, Copy, Debug, PartialEq, Eq)]
pub enum Outcome {
    /// A positive reply.
    Done,
    /// An error.
    Refused,
    /// No reply before the next command: it isn't known whether it was carried out.
    Unanswered,
}
