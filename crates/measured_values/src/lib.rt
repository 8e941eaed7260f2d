//! Measured values: what a description says of one, in plain data, and what is shown of it, from
//! its bytes to a raw value, a physical value and a text (ASAM MCD-2 MC, MEASUREMENT and
//! COMPU_METHOD).
#![tactic(auto)]

mod bit_operation;
mod byte_order;
mod conversion;
mod data_type;
mod decimal_places;
mod encoding;
mod physical;
mod physical_text;
mod physical_values;
mod raw;
mod raw_bytes;
mod seconds;
mod tally;
mod text_table;
mod tick;
mod tick_text;
mod trailing_zeros;
mod value_limits;

pub use bit_operation::BitOperation;
pub use byte_order::ByteOrder;
pub use conversion::Conversion;
pub use data_type::DataType;
pub use encoding::Encoding;
pub use physical::Physical;
pub use physical_text::push_physical;
pub use physical_values::physical_of;
pub use raw::Raw;
pub use raw_bytes::{number_in, raw_of};
pub use seconds::push_seconds;
pub use tally::Tally;
pub use text_table::{TextRow, TextTable};
pub use tick::Tick;
pub use tick_text::tick_of;
pub use value_limits::ValueLimits;
