//! The version, which each program prints if its arguments ask for it.
ghost use Rattle.std.specs.Prelude.{◌≡◌, ◌≤◌, OnOk, map, string_bytes};
ghost use Rattle.std.specs.Io.KnownBytes.{Appends};
ghost use Rattle.program_input.specs.Versions.{PrintsVersion, asks_version, version_line};

use std::io::{self, Write};

/// The version of the programs and of the library: that of the file VERSION.
pub const VERSION: &str = "0.4.0";

/// Whether the arguments ask for the version: `--version` is among those in front of `--`, whatever
/// the others are.
pub fn asks_version(words: &[String]) -> bool
    ensures { result ≡ asks_version (map string_bytes words.now) }
{
    for word in words {
        if word.as_str() == "--" {
            return false;
        }
        if word.as_str() == "--version" {
            return true;
        }
    }
    false
}

/// Prints the name of a program and the version, as one line, and returns the status of that
/// program: 0 if the line is printed, else 1.
pub fn print_version<W: Write>(out: &mut W, name: &str) -> u8
    ensures status { result ≤ 1 }
    ensures printed { PrintsVersion name.now (W.contents out.old) (W.contents out.new) result }
{
    match write_version(out, name) {
        Ok(()) => 0,
        Err(_) => 1,
    }
}

/// Writes the name of a program and the version, as one line.
fn write_version<W: Write>(out: &mut W, name: &str) -> io::Result<()>
    ensures { OnOk result (Appends (W.contents out.old) (W.contents out.new)
        (version_line name.now)) }
{
    writeln!(out, "{name} {VERSION}")?;
    out.flush()
}
