//! The program `xcpslave`: it plays a session file, and prints what the slave sent and the account.
#![tactic(auto)]

mod command_line;
mod expected;
mod session_fault;
mod session_text;
mod session_words;
mod whole_program;
mod why_no_session;

use crate::whole_program::program;
use program_input::arguments;
use std::process::ExitCode;

fn main(rt: HostRuntime) -> ExitCode {
    let words = match arguments(&rt) {
        Ok(words) => words,
        Err(fault) => {
            let _ = eprintln!(rt; "xcpslave: {fault}");
            return ExitCode::from(fault.status());
        }
    };
    let status = program(
        &rt,
        rt.alloc(),
        &words,
        rt.stdin(),
        rt.stdout(),
        rt.stderr(),
    );
    ExitCode::from(status)
}
