//! What ends a file.
/// The bytes that stand in front of the blocks of records, and those that stand behind them.
#[derive(Debug, Drop)]
pub struct FileEnd {
    /// The first 168 bytes of the file, to be written last.
    pub front: Vec<u8>,
    pub behind: Vec<u8>,
}
