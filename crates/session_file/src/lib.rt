//! Session files: from the text of a TOML document to the profile of a slave and the lines of a
//! session; and how a session is played: a slave, its tasks and its transport in one thread.
#![tactic(auto)]

mod bad_key;
mod events;
mod file;
mod file_fault;
mod keys;
pub mod limits;
mod line;
mod lines;
mod memory;
mod memory_keys;
mod parts;
mod play_fault;
mod played;
mod player;
mod playing;
mod transport;
mod values;
mod words;

pub use bad_key::BadKey;
pub use file::SessionFile;
pub use file_fault::FileFault;
pub use keys::{FILE_KEYS, is_file_key};
pub use line::Line;
pub use parts::{PartLine, Parts};
pub use play_fault::PlayFault;
pub use played::Played;
pub use playing::{play, play_over};
