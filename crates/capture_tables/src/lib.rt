//! What is printed of a capture: the samples of a slave, by name or by address.
#![tactic(auto)]

mod capture_clock;
mod capture_column;
mod capture_file;
mod capture_rows;
mod capture_sheet;
mod clocks;
mod element_rows;
mod element_survey;
mod file_clock;
mod file_lists;
mod list_groups;
mod list_table;
mod passed;
mod row_text;
mod sample_time;
mod tally_table;
mod unwound;
mod value_picture;
mod values_at;

pub use capture_file::CaptureFile;
pub use capture_rows::CaptureRows;
pub use capture_sheet::CaptureSheet;
pub use clocks::Clocks;
pub use element_rows::ElementRows;
pub use element_survey::ElementSurvey;
pub use list_table::ListTable;
pub use tally_table::TallyTable;
pub use value_picture::ValuePicture;
