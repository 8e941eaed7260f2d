//! What `xcpread` says of itself in a measurement file.

use mdf_blocks::{Time, Zone};
use mdf_file::About;
use program_input::VERSION;
use std::alloc::{AllocError, Global};

/// The program's name, in eight letters.
const PROGRAM: [u8; 8] = *b"xcpread ";

/// What the file says of itself (ASAM MDF 4.1, HD and FH): its start in nanoseconds since
/// 1970-01-01, UTC, or 0, and a comment that says so.
pub fn about(alloc: Global, start: Option<u64>) -> Result<About, AllocError> {
    Ok(About {
        start: Time {
            nanoseconds: start.unwrap_or(0),
            zone: Zone::Utc,
        },
        program: PROGRAM,
        comment: comment(alloc, start.is_some())?,
    })
}

/// The comment of the file's history, in XML.
fn comment(alloc: Global, has_start: bool) -> Result<String, AllocError> {
    let mut text = String::new(alloc);
    text.push_str("<FHcomment><TX>")?;
    text.push_str(start_in_words(has_start))?;
    text.push_str("</TX><tool_id>xcpread</tool_id><tool_vendor>Nerthogal</tool_vendor>")?;
    text.push_str("<tool_version>")?;
    text.push_str(VERSION)?;
    text.push_str("</tool_version></FHcomment>")?;
    Ok(text)
}

/// What the times of the file count from.
fn start_in_words(has_start: bool) -> &'static str {
    if has_start {
        return "The start is the time of the slave's first captured packet.";
    }
    "The start isn't known: times are those of the slave's clock."
}
