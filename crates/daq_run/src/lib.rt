//! Whole runs: the command packets of a set-up, carried out and answered; the steps, on an engine
//! in one thread or with a thread for each event channel; and the account. Beside them a run of
//! fixed form, which takes no memory.
#![tactic(auto)]

mod came;
mod cause;
mod doing;
mod fixed;
mod gate;
pub mod laws;
mod meanwhile;
mod outcome;
mod sampling;
mod serial;
mod setting_up;
mod setup;
mod sim_fault;
mod threaded;
mod watch;
mod worker;

pub use came::Came;
pub use cause::Cause;
pub use doing::{do_step, do_steps, do_watched};
pub use fixed::fixed_run;
pub use gate::{Gate, NoGate};
pub use outcome::Outcome;
pub use sampling::ask;
pub use serial::{run_serial, run_watched};
pub use setting_up::set_up;
pub use setup::{SetupFault, carry_all};
pub use sim_fault::SimFault;
pub use threaded::run_threads;
pub use watch::{NoWatch, Watch};
