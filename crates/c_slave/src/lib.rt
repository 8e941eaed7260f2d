//! What each call for C does to the handles of a slave and of its tasks, with a status for each
//! answer.
#![tactic(auto)]

mod byte_calls;
mod closing;
mod content;
mod handle;
mod lending;
mod measurements_out;
mod opening;
mod profile_in;
mod profiles;
mod sending_calls;
mod state_calls;
mod state_out;
mod task_calls;
mod telling;

pub use byte_calls::{datagram_by, hang_up_by, receive_by};
pub use closing::close_slave_by;
pub use content::Content;
pub use handle::Handle;
pub use lending::give_task;
pub use measurements_out::{MeasurementOut, MeasurementsOut};
pub use opening::open_slave;
pub use profile_in::{EventIn, ProfileIn, SegmentIn};
pub use sending_calls::{peek_by, sent_by};
pub use state_calls::state_by;
pub use state_out::StateOut;
pub use task_calls::{finish_task_by, status_of_finish, trigger_task_by};
