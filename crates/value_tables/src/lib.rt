//! The values of what an A2L file describes: which of them there are in a recording or a capture;
//! and read off the samples of a recording, as CSV, counted, and as curves.
#![tactic(auto)]

mod column;
mod columns;
mod elements;
mod fields;
mod holder;
pub mod laws;
mod list_columns;
mod places;
mod row_writer;
mod source;
mod tally_text;
mod value;
mod value_curves;
mod value_rows;
mod value_tallies;

pub use column::Column;
pub use columns::{columns_of, is_held, unknown_name};
pub use elements::with_elements;
pub use holder::Holder;
pub use places::{place_for, push_entries, sample_len};
pub use row_writer::write_head;
pub use tally_text::{print_head as print_tally_head, print_line as print_tally, print_tallies};
pub use value::{physical_in, write_value};
pub use value_curves::ValueCurves;
pub use value_rows::ValueRows;
pub use value_tallies::ValueTallies;
