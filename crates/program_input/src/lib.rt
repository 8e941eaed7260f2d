//! What a program is given: its arguments, and the bytes of files and of standard input, of which
//! no more than 64 MiB are read.
#![tactic(auto)]

mod argument_list;
mod arguments_fault;
mod reading;
mod text_fault;
mod versions;

pub use argument_list::arguments;
pub use arguments_fault::ArgumentsFault;
pub use reading::{MAX_TEXT_BYTES, bytes_from, front_from, is_read_to_end, text_from};
pub use text_fault::TextFault;
pub use versions::{VERSION, asks_version, print_version};
