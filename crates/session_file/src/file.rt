//! A session is read from the text of its file: a profile and a script.
ghost use Rattle.std.specs.Prelude.{◌≡◌, ◌⊎◌, ℕ, IfErr, IfOk, IsErrOf, None, Some, map};
ghost use Rattle.toml.specs.Parse.{parse_document};
ghost use Rattle.toml.specs.View.{table_view};
ghost use Rattle.run_file.specs.Keys.{all_of};
ghost use Rattle.session_file.specs.declared.file_fault.FileFault.TheVariants.{Memory, NotToml};
ghost use Rattle.session_file.specs.Events.{event_data, event_in};
ghost use Rattle.session_file.specs.Inner.{values_data};
ghost use Rattle.session_file.specs.Files.{HasBadEvent, HasBadKeyText, HasBadLine, HasBadSegment};
ghost use Rattle.session_file.specs.Files.{IsProfileOf, IsSessionText};
ghost use Rattle.session_file.specs.Memory.{count_of, segments_of};

use crate::events::events_of;
use crate::file_fault::FileFault;
use crate::keys::bytes_in;
use crate::line::Line;
use crate::lines::lines_of;
use crate::memory::segments_of;
use crate::values::{Values, channels_of, values_of};
use segments::Segment;
use session::{EventChannel, Profile};
use std::alloc::{AllocError, Global};
use toml::Table;

/// A session, as a file tells it: what the slave is opened with, and what its master, the tasks and
/// the transport do, line by line. Whether the profile is within its limits `Profile::fault` tells.
#[derive(Debug, Drop)]
pub struct SessionFile {
    pub profile: Profile,
    pub script: Vec<Line>,
}

impl SessionFile {
    /// The session of a text.
    ///
    /// Refused with the first of these faults: `NotToml`, `BadKey`, `BadSegment`, `BadEvent`,
    /// `BadLine`. Lack of memory, `Memory`, may be answered before any of them.
    pub fn read(alloc: Global, text: &str) -> Result<SessionFile, FileFault>
        ensures ok { IfOk result (IsSessionText text.now) }

        ensures not_toml { IsErrOf result FileFault.NotToml → parse_document text.now ≡ None }
        ensures bad_key { IsErrOf result FileFault.BadKey → HasBadKeyText text.now }
        ensures bad_segment { (i : ℕ)
            → IsErrOf result (FileFault.BadSegment i) → HasBadSegment text.now i }
        ensures bad_event { (i : ℕ)
            → IsErrOf result (FileFault.BadEvent i) → HasBadEvent text.now i }
        ensures bad_line { (i : ℕ)
            → IsErrOf result (FileFault.BadLine i) → HasBadLine text.now i }
    {
        let table = table_of(alloc, text)?;
        let values = values_of(&table)?;
        let segments = segments_of(alloc, values.memory, channels_of(&values))?;
        let events = events_of(alloc, values.events)?;
        let script = lines_of(alloc, values.script)?;
        let Ok(profile) = profile_of(alloc, &values, segments, events) else {
            return Err(FileFault::Memory);
        };
        Ok(SessionFile { profile, script })
    }
}

/// The table of a TOML document.
fn table_of(alloc: Global, text: &str) -> Result<Table, FileFault>
    ensures ok { IfOk result (λ table. parse_document text.now ≡ Some (table_view table)) }
    ensures err { IfErr result (λ e. (e ≡ Memory)
        ⊎ ((e ≡ NotToml) × (parse_document text.now ≡ None))) }
{
    match toml::table_from_str(alloc, text) {
        Ok(table) => Ok(table),
        Err(error) => {
            if error.is_memory() {
                return Err(FileFault::Memory);
            }
            Err(FileFault::NotToml)
        }
    }
}

/// The profile with these values, segments and event channels.
fn profile_of(
    alloc: Global,
    values: &Values<'_>,
    segments: Vec<Segment>,
    events: Vec<EventChannel>,
) -> Result<Profile, AllocError>
    requires memory { segments_of (count_of (values_data values.now).events)
        (values_data values.now).memory ≡ Some segments.items }
    requires read { all_of event_in (values_data values.now).events
        ≡ Some (map event_data events.items) }
    ensures { IfOk result (IsProfileOf (values_data values.now)) }
{
    Ok(Profile {
        segments,
        id: values.id,
        stamp_size: values.stamp.bytes(),
        unit: values.unit,
        ticks: values.ticks,
        max_cto: values.max_cto,
        max_dto: values.max_dto,
        name: bytes_in(alloc, values.name)?,
        events,
        a2l_name: bytes_in(alloc, values.a2l_name)?,
        epk: bytes_in(alloc, values.epk)?,
        a2l: bytes_in(alloc, values.a2l)?,
    })
}
