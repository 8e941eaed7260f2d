//! Why the words of an A2L text can't be read on.
use thiserror::Error;

/// Why a text has no next word.
#[derive(Clone, Copy, Debug, PartialEq, Eq, Error)]
pub enum WordFault {
    /// A text has no closing quote.
    #[error("the text has no closing quote")]
    OpenText,
    /// A comment that begins with `/*` has no `*/`.
    #[error("the comment has no end")]
    OpenComment,
}
