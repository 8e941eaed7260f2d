//! The file that a measurement file is written to.

use crate::err_messages::ErrMessages;
use crate::program_fault::ProgramFault;
use std::fs;
use std::io::Write;
use std::os::unix::fs::MetadataExt;
use std::rt::Files;

/// Makes the file, or empties it. One that is an input, by whatever name, or that is no file, stays
/// as it is.
pub fn make_output<R: Files, E: Write + Drop>(
    rt: &R,
    path: &str,
    inputs: &[&str],
    messages: &mut ErrMessages<E>,
) -> Result<R::File, ProgramFault> {
    check_output(rt, path, inputs)?;
    match fs::create(rt, path) {
        Ok(file) => Ok(file),
        Err(error) => {
            messages.detail(path);
            messages.why.tell_file(path, error);
            Err(ProgramFault::UnmadeOutput)
        }
    }
}

/// That a path leads to nothing yet, or to a file that is none of the inputs.
fn check_output<R: Files>(rt: &R, path: &str, inputs: &[&str]) -> Result<(), ProgramFault> {
    let Ok(there) = fs::metadata(rt, path) else {
        return Ok(());
    };
    if !there.is_file() {
        return Err(ProgramFault::OutputNoFile);
    }
    for input in inputs {
        if is_file_of(rt, input, there.dev(), there.ino()) {
            return Err(ProgramFault::OutputIsInput);
        }
    }
    Ok(())
}

/// Whether a path leads to the file of this number on this device.
fn is_file_of<R: Files>(rt: &R, path: &str, device: u64, number: u64) -> bool {
    match fs::metadata(rt, path) {
        Ok(it) => it.dev() == device && it.ino() == number,
        Err(_) => false,
    }
}
