//! How a recording is shown: which samples or values, and in which form.
use crate::mode::Mode;
use measured_values::Tick;

/// How a recording is shown.
#[derive(Clone, Copy)]
pub struct View<'a> {
    /// How its samples are shown.
    pub mode: Mode,
    /// Whether its replies and frames are printed in words, before a table.
    pub explain: bool,
    /// The names of the measurements that are shown of a description, with commas between them;
    /// `None`: all.
    pub only: Option<&'a str>,
    /// How long a tick is, if that is said.
    pub tick: Option<Tick>,
}
