//! The program `xcpdaq`: it carries out a run file, and prints its frames and its account.
#![tactic(auto)]

use daq_sim::program;
use program_input::{ArgumentsFault, arguments};
use std::process::ExitCode;

fn main(rt: HostRuntime) -> ExitCode {
    let words = match arguments(&rt) {
        Ok(words) => words,
        Err(fault) => {
            let _ = match fault {
                ArgumentsFault::Memory => eprintln!(rt; "xcpdaq: want of memory"),
                ArgumentsFault::NotText => eprintln!(rt; "xcpdaq: {fault}"),
            };
            return ExitCode::from(fault.status());
        }
    };
    let status = program(
        &rt,
        rt.alloc(),
        &words,
        rt.stdin(),
        rt.stdout(),
        rt.stderr(),
    );
    ExitCode::from(status)
}
