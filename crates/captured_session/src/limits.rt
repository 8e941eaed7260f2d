//! The limits of what is kept of a session.

/// The most facts of a set-up, which are those of as many commands.
pub const MAX_FACTS: usize = 1_048_576;
