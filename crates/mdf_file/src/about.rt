//! What a file says of itself.
use mdf_blocks::Time;

/// What a file says of itself (ASAM MDF 4.1, ID, HD and FH).
#[derive(Debug, Drop)]
pub struct About {
    /// When the measurement began.
    pub start: Time,
    /// Eight letters that name the program.
    pub program: [u8; 8],
    /// The comment of the history, in XML, which has the tool's name.
    pub comment: String,
}
