//! A group whose records stand in a file already.
use crate::new_channel::NewChannel;
use mdf_blocks::ListedData;

/// Records of one kind, in blocks that were written before (ASAM MDF 4.1, DG with one CG).
#[derive(Debug, Drop)]
pub struct StreamedGroup {
    /// What the samples came of.
    pub name: String,
    pub channels: Vec<NewChannel>,
    /// The number of bytes of a record, at least 1.
    pub record_bytes: u32,
    /// The blocks of its records, in their order.
    pub blocks: Vec<ListedData>,
    /// The number of bytes of all its records.
    pub len: u64,
}
