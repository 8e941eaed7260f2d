//! Of which measurements all parts came back, once a slave is closed.
/// Of which measurements of an account all parts are in it.
#[derive(Clone, Copy, Debug, PartialEq, Eq)]
pub struct Complete {
    /// Of each of the last four, in the order of their numbers.
    pub last: [bool; 4],
    /// Of all before them.
    pub older: bool,
}
