//! What the value of a bad key of a run file should be.
use run_file::BadKey;
use std::alloc::AllocError;
use toml::Table;

/// Writes what the value of a bad key should be.
pub fn write_expected(why: &mut String, bad: BadKey, table: &Table) -> Result<(), AllocError> {
    why.push_str("expected: ")?;
    match bad {
        BadKey::Unknown => why.push_str("a key of a run file\n"),
        BadKey::Channels => why.push_str("an integer from 1 to 8\n"),
        BadKey::ImageLen => why.push_str("an integer from 1 to 4096\n"),
        BadKey::Drain => why.push_str("true or false\n"),
        BadKey::Setup => why.push_str("an array of at most 10000 strings\n"),
        BadKey::Steps => why.push_str("an array of at most 1000000 strings\n"),
        BadKey::Id => why.push_str("\"absolute\", \"byte\" or \"word\"\n"),
        BadKey::StampSize => why.push_str("1, 2 or 4\n"),
        BadKey::Ring => why.push_str("\"samples\" or \"bytes\"\n"),
        BadKey::Caps => write_caps(why, table),
    }
}

/// Writes what the capacities should be.
fn write_caps(why: &mut String, table: &Table) -> Result<(), AllocError> {
    let channels = table.get("channels").and_then(|value| value.as_integer());
    let ring = table.get("ring").and_then(|value| value.as_str());
    let bounds = match ring {
        Some("bytes") => "532 to 65536",
        _ => "1 to 1024",
    };
    writeln!(
        why,
        "an array with one integer from {bounds} for each event channel, and channels = {}",
        channels.unwrap_or(0)
    )
}
