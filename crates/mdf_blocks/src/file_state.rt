//! Whether a file is finished.
/// Whether a file was written to its end, or what is still to be done (ASAM MDF 4.1, ID:
/// id_unfin_flags).
#[derive(Clone, Copy, Debug, PartialEq, Eq)]
pub enum FileState {
    Finished,
    Unfinished {
        /// The numbers of records of the channel groups are to be set.
        cycles: bool,
        /// The length of the last data block is to be set.
        last_data: bool,
        /// The last list of data blocks is to be set.
        last_list: bool,
    },
}
