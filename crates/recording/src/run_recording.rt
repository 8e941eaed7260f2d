//! A recording beside the run that it was made of.
use a2l::Description;
use daq_store::Store;
use run_file::Run;

/// A recording, what it begins with, and what is said of its values.
#[derive(Clone, Copy)]
pub struct RunRecording<'a> {
    /// The name of its file.
    pub name: &'a str,
    /// The run that it was made of.
    pub run: &'a Run,
    /// The replies to the set-up.
    pub replies: &'a [u8],
    /// The store that the set-up leaves.
    pub store: &'a Store,
    /// What the A2L file says, if there is one.
    pub description: Option<&'a Description>,
}
