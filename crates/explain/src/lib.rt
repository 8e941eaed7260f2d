//! What became of a run, told line by line: its command packets with their replies, its steps with
//! what came of each, and its frames; or why a text is no run, or a recording isn't read. And reads
//! a run from a text, with that reason.
#![tactic(auto)]

mod alike;
mod bad_run;
mod broken;
mod byte_text;
mod came_text;
mod command_text;
mod expected;
mod frame_lines;
mod keeping_out;
mod list_set_text;
mod names;
mod other_run;
mod place_in_text;
mod reply_text;
mod request_text;
mod run_text;
mod run_text_fault;
mod step_log;
mod step_text;
mod stop;
mod story;
mod why;

pub use alike::near_key;
pub use bad_run::{why_no_run, write_place, write_string, write_value};
pub use broken::why_broken;
pub use byte_text::ByteText;
pub use command_text::CommandText;
pub use frame_lines::write_sample;
pub use keeping_out::KeepingOut;
pub use names::{command_name, error_name, event_name, service_name};
pub use other_run::why_other_run;
pub use place_in_text::line_of_key;
pub use reply_text::ReplyText;
pub use request_text::RequestText;
pub use run_text::{run_from, run_or_why};
pub use run_text_fault::RunTextFault;
pub use step_log::StepLog;
pub use stop::Stop;
pub use story::{set_up_story, story_of};
pub use why::Why;
