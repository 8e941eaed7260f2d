//! The text of an A2L file (ASAM MCD-2 MC, the description file): its words, numbers, texts and
//! where they stand; and the blocks that say what is measured, each with the words directly in it.
#![tactic(auto)]

mod block_fault;
mod blocks;
mod decoded;
mod fault;
mod fronts;
mod gap;
mod in_text;
mod keyword;
mod kind;
pub mod laws;
mod located;
mod number;
mod part;
mod place;
mod role;
mod split;
mod token;
mod word;
mod words;

pub use block_fault::BlockFault;
pub use blocks::Blocks;
pub use decoded::text_of;
pub use fault::WordFault;
pub use keyword::{is, meaning};
pub use located::Located;
pub use number::{integer_of, number_of};
pub use part::Part;
pub use place::{Place, place_of};
pub use word::Word;
pub use words::Words;
