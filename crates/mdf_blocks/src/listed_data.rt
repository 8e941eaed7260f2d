//! A data block, as a list has it.
/// Where a data block stands, and how many bytes of records stand in the blocks before it (ASAM
/// MDF 4.1, DL: dl_data and dl_offset).
#[derive(Clone, Copy, Debug, PartialEq, Eq)]
pub struct ListedData {
    pub place: u64,
    pub offset: u64,
}
