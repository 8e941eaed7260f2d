//! Samplers on their way to the threads of tasks, and back: each task has one event channel, whose
//! measurements come and go.
#![tactic(auto)]

mod apart;
mod away;
mod fault;
mod handed;
mod link;
mod lost;
mod needs;
mod rule;
mod task;
mod task_end;

pub use apart::finish_apart;
pub use fault::HandFault;
pub use link::TaskLink;
pub use lost::Lost;
pub use task::Task;
pub use task_end::TaskEnd;
