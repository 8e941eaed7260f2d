//! The program `xcpdaq`, generic over its files and streams; and with it all of whole runs: run
//! files, set-ups, runs and their outcomes.
#![tactic(auto)]

mod carrying;
mod command_line;
mod explaining;
mod program_fault;
mod report_text;
mod whole_program;

pub use daq_run::{
    Gate, NoGate, Outcome, SetupFault, SimFault, carry_all, fixed_run, run_serial, run_threads,
};
pub use run_file::{Run, RunFault, Step};
pub use whole_program::program;
