//! A slave that lends its tasks: each is handed out once, to a thread of its own, and what is left
//! of it comes back to the slave.
#![tactic(auto)]

mod bytes;
mod closing;
mod lend_fault;
mod lending;
mod lending_slave;
mod lent_task;
mod same_line;
mod sending;
mod slot;
mod state;

pub use lend_fault::LendFault;
pub use lending_slave::LendingSlave;
pub use lent_task::{GivenTask, LentTask};
pub use same_line::SameLine;
