//! What is known of the bytes that come next in a connection.

/// What is known of the bytes that come next in a connection.
#[derive(Clone, Copy, Debug, PartialEq, Eq)]
pub enum NextBytes {
    /// They didn't come yet.
    Wait,
    /// They came, and were handed out.
    GoOn,
    /// They aren't waited for any longer: what is handed out then stands behind a gap.
    Gap,
}
