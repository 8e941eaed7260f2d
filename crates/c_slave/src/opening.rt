//! A slave is opened.
ghost use Rattle.std.specs.Prelude.{◌≡◌, IfErr, IfOk};
ghost use Rattle.c_slave.specs.Openings.{IsSlaveOf, OpensSlave, SlaveOf};
ghost use Rattle.c_slave.specs.Profiles.{RefusesProfile};

use crate::content::Content;
use crate::handle::Handle;
use crate::profile_in::{EventIn, ProfileIn, SegmentIn};
use crate::profiles::good_profile;
use c_engine::Status;
use session::Profile;
use slave_lending::LendingSlave;
use std::alloc::Global;

/// A slave with this profile, as a handle holds it.
fn opened_as(alloc: Global, profile: Profile) -> Result<Content, Status>
    ensures ok { IfOk result (IsSlaveOf profile) }
    ensures err { IfErr result (λ status. status ≡ Status.Memory) }
{
    match LendingSlave::open(alloc, profile) {
        Ok(slave) => Ok(Content::Slave(slave)),
        Err(_) => Err(Status::Memory),
    }
}

/// A slave with the profile that is asked for, on the heap.
fn opened_on_heap(
    alloc: Global,
    asked: &ProfileIn,
    segments: &[SegmentIn],
    events: &[EventIn],
    a2l: &[u8],
) -> Result<Box<Content>, Status>
    ensures ok { IfOk result
        (λ it. SlaveOf asked.now segments.now events.now a2l.now it.value) }
    ensures err { IfErr result (RefusesProfile asked.now segments.now events.now a2l.now) }
{
    let profile = good_profile(alloc, asked, segments, events, a2l)?;
    let content = opened_as(alloc, profile)?;
    content.boxed(alloc)
}

/// Opens a slave with the profile that is asked for, into an empty handle.
pub fn open_slave(
    alloc: Global,
    asked: &ProfileIn,
    segments: &[SegmentIn],
    events: &[EventIn],
    a2l: &[u8],
    slave: &mut Handle,
) -> Status
    ensures { OpensSlave slave.old.held slave.new.held
        asked.now segments.now events.now a2l.now result }
{
    if let Some(_) = slave.content() {
        return Status::InUse;
    }
    match opened_on_heap(alloc, asked, segments, events, a2l) {
        Ok(content) => {
            slave.put(alloc, content);
            Status::Ok
        }
        Err(status) => status,
    }
}
