//! The arguments of a program.
use crate::arguments_fault::ArgumentsFault;
use std::env;
use std::io::{self, ErrorKind};
use std::rt::Env;

/// The arguments of the program, without its name.
///
/// Refused if an argument isn't UTF-8; lack of memory is `Memory`.
pub fn arguments<R: AllocGlobal + Env>(rt: &R) -> Result<Vec<String>, ArgumentsFault> {
    let words = env::args(rt).map_err(|error| fault_of(&error))?;
    words
        .skip(1)
        .collect(rt.alloc())
        .map_err(|_| ArgumentsFault::Memory)
}

/// Why there are no arguments: one isn't UTF-8, or memory was refused.
fn fault_of(error: &io::Error) -> ArgumentsFault {
    match error.kind() {
        ErrorKind::OutOfMemory => ArgumentsFault::Memory,
        _ => ArgumentsFault::NotText,
    }
}
