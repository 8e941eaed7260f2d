//! Recordings that are read back by the run file that they were made of: their samples are shown as
//! a table, as CSV, as a picture, by name or in words.
#![tactic(auto)]

mod beginning;
mod break_off;
mod curve_sheet;
mod drawing;
mod explaining;
mod file_groups;
mod file_sheet;
mod file_values;
mod file_writing;
pub mod laws;
mod messages;
mod mode;
mod not_shown;
mod piece;
mod place;
mod reason;
mod recording;
mod recording_fault;
mod row_sheets;
mod run_recording;
mod sample_lines;
mod sheet;
mod showing;
mod source;
mod table;
mod tally_sheet;
mod values;
mod view;
mod whole_file;

pub use beginning::begin_recording;
pub use break_off::BreakOff;
pub use file_values::FileValues;
pub use file_writing::write_values;
pub use messages::Messages;
pub use mode::Mode;
pub use not_shown::tell_not_shown;
pub use piece::Piece;
pub use place::Place;
pub use reason::Reason;
pub use recording_fault::RecordingFault;
pub use run_recording::RunRecording;
pub use source::Source;
pub use values::{Values, chosen_columns, values_of};
pub use view::View;
pub use whole_file::show_recording;
