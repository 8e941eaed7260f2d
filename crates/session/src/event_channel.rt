//! An event channel of the profile, and the limits of its name and its cycle.
ghost use Rattle.std.specs.Prelude.{◌≡◌};
ghost use Rattle.std.specs.List.{list_any};
ghost use Rattle.session.specs.Profiles.{event_fault, events_fault, is_bad_name, is_unprintable};

use crate::profile::ProfileFault;
use xcp_base::limits::{MAX_NAME, MAX_UNIT};

/// What a slave tells of an event channel.
#[derive(Debug, Drop)]
pub struct EventChannel {
    /// The capacity of its ring in bytes: 64 to 16,777,216, a multiple of 8.
    pub capacity: usize,
    /// 0 to 56 bytes of ASCII, 0x20 to 0x7E.
    pub name: Vec<u8>,
    /// The cycle of its triggers, in its unit; 0 if there is none.
    pub cycle: u8,
    /// 0 to 9: 1 ns, 10 ns, .. 1 s.
    pub cycle_unit: u8,
    pub priority: u8,
}

/// The first limit that event channels are out of, channel by channel.
pub fn events_fault(events: &[EventChannel]) -> Option<ProfileFault>
    ensures { result ≡ events_fault events.now }
{
    for event in events {
        if let Some(fault) = event_fault(event) {
            return Some(fault);
        }
    }
    None
}

/// The first limit that an event channel is out of.
fn event_fault(event: &EventChannel) -> Option<ProfileFault>
    ensures { result ≡ event_fault event.now }
{
    if is_bad_name(&event.name) {
        return Some(ProfileFault::EventName);
    }
    if event.cycle_unit > MAX_UNIT {
        return Some(ProfileFault::CycleUnit);
    }
    None
}

/// Whether a name is too long, or not of printable ASCII.
pub fn is_bad_name(name: &[u8]) -> bool
    ensures { result ≡ is_bad_name name.now }
{
    name.len() > MAX_NAME || has_unprintable(name)
}

/// Whether a byte of a name is not printable ASCII.
fn has_unprintable(name: &[u8]) -> bool
    ensures { result ≡ list_any is_unprintable name.now }
{
    name.iter().any(|&byte| is_unprintable(byte))
}

/// Whether a byte is not printable ASCII.
fn is_unprintable(byte: u8) -> bool
    ensures { result ≡ is_unprintable byte }
{
    byte < 0x20 || byte > 0x7E
}
