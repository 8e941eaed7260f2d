//! What of a recording is written to a measurement file.
use measured_values::Tick;
use value_tables::Column;

/// What is written of a recording.
#[derive(Clone, Copy)]
pub struct FileValues<'a> {
    pub columns: &'a [Column<'a>],
    /// How long a tick is, if that is known.
    pub tick: Option<Tick>,
}
