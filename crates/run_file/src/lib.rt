//! Run files: from the text of a TOML document to the command packets and the steps of a run.
#![tactic(auto)]

mod bad_key;
mod kept;
mod keys;
pub mod laws;
pub mod limits;
mod run;
mod run_fault;
mod step;
mod step_fault;
mod step_list;
mod texts;
mod values;
mod wording;

pub use bad_key::BadKey;
pub use keys::{array_at, id_of, is_key, number_at, number_in, ring_of, stamp_of, texts_at};
pub use run::Run;
pub use run_fault::RunFault;
pub use step::Step;
pub use texts::{bytes_of, packet_of, text_in};
pub use wording::{Wording, cut, number_of, wording_of};
