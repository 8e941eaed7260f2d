//! The program `xcpread`: it reads a recording back, by the run file that it was made of, or a
//! capture, and prints its samples.
#![tactic(auto)]

mod capture_bytes;
mod capture_output;
mod capture_program;
mod capture_views;
mod command_line;
mod err_messages;
mod held_capture;
mod mdf_about;
mod no_text;
mod one_sink;
mod output_file;
mod program_fault;
mod run_output;
mod told_form;
mod whole_program;
mod why_unread;

use crate::whole_program::program;
use program_input::arguments;
use std::process::ExitCode;

fn main(rt: HostRuntime) -> ExitCode {
    let words = match arguments(&rt) {
        Ok(words) => words,
        Err(fault) => {
            let _ = eprintln!(rt; "xcpread: {fault}");
            return ExitCode::from(fault.status());
        }
    };
    let status = program(
        &rt,
        rt.alloc(),
        &words,
        rt.stdin(),
        rt.stdout(),
        rt.stderr(),
    );
    ExitCode::from(status)
}
