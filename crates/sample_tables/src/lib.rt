//! The samples that were read off a recording: counted, as a table and as CSV, with their times and
//! their places on an axis.
#![tactic(auto)]

mod places;
mod row;
mod sample_rows;
mod spot;
mod spots;
mod summary;
mod summary_text;
mod tally;
mod times;

pub use places::Places;
pub use row::{MAX_SIZE, decimal, hexadecimal, one_or_zero};
pub use sample_rows::SampleRows;
pub use spot::Spot;
pub use spots::Spots;
pub use summary::Summary;
pub use summary_text::{print_head, print_summary, print_tally};
pub use tally::Tally;
