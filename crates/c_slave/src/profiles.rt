//! The profile that is asked for.
ghost use Rattle.std.specs.Prelude.{◌≡◌, IfErr, IfOk, map};
ghost use Rattle.c_slave.specs.Profiles.{IsGoodProfileOf, IsProfileOf, RefusesProfile};
ghost use Rattle.c_slave.specs.Profiles.{segment_in, text_of, told_in, told_of};

use crate::profile_in::{EventIn, ProfileIn, SegmentIn};
use c_engine::{Status, kind_numbered};
use segments::Segment;
use session::{EventChannel, Profile};
use std::alloc::{AllocError, Global};

/// The bytes of a name, up to the first zero byte.
fn text_of(alloc: Global, name: &[u8]) -> Result<Vec<u8>, AllocError>
    ensures { IfOk result (λ text. text.items ≡ text_of name.now) }
{
    let mut text = Vec::new(alloc);
    for k in 0..name.len() {
        let byte = name[k];
        if byte == 0 {
            return Ok(text);
        }
        text.push(byte)?;
    }
    Ok(text)
}

/// The event channel that is asked for.
fn event_of(alloc: Global, event: &EventIn) -> Result<EventChannel, AllocError>
    ensures { IfOk result (λ made. told_of made ≡ told_in event.now) }
{
    let name = text_of(alloc, &event.name)?;
    Ok(EventChannel {
        capacity: event.capacity,
        name,
        cycle: event.cycle,
        cycle_unit: event.cycle_unit,
        priority: event.priority,
    })
}

/// The event channels that are asked for, in their order.
fn events_of(alloc: Global, events: &[EventIn]) -> Result<Vec<EventChannel>, AllocError>
    ensures { IfOk result (λ made. map told_of made.items ≡ map told_in events.now) }
{
    let mut made = Vec::new(alloc);
    for event in events {
        made.push(event_of(alloc, event)?)?;
    }
    Ok(made)
}

/// A copy of bytes.
fn copy_of(alloc: Global, bytes: &[u8]) -> Result<Vec<u8>, AllocError>
    ensures { IfOk result (λ made. made.items ≡ bytes.now) }
{
    let mut made = Vec::new(alloc);
    made.extend_from_slice(bytes)?;
    Ok(made)
}

/// The texts of identification that are asked for: the name of the A2L file, the EPK, and the A2L
/// file.
fn texts_of(
    alloc: Global,
    asked: &ProfileIn,
    a2l: &[u8],
) -> Result<(Vec<u8>, Vec<u8>, Vec<u8>), AllocError>
    ensures { IfOk result (λ made. (made.0.items ≡ text_of asked.now.a2l_name)
        × (made.1.items ≡ text_of asked.now.epk) × (made.2.items ≡ a2l.now)) }
{
    let a2l_name = text_of(alloc, &asked.a2l_name)?;
    let epk = text_of(alloc, &asked.epk)?;
    Ok((a2l_name, epk, copy_of(alloc, a2l)?))
}

/// A segment that is asked for.
fn segment_of(asked: &SegmentIn) -> Segment
    ensures { result ≡ segment_in asked.now }
{
    Segment {
        extension: asked.extension,
        base: asked.base,
        len: asked.len,
        events: asked.events,
    }
}

/// The segments that are asked for, in their order.
fn segments_of(alloc: Global, segments: &[SegmentIn]) -> Result<Vec<Segment>, AllocError>
    ensures { IfOk result (λ made. made.items ≡ map segment_in segments.now) }
{
    let mut made = Vec::new(alloc);
    for segment in segments {
        made.push(segment_of(segment))?;
    }
    Ok(made)
}

/// The profile that is asked for, if there is such an identification field.
fn profile_of(
    alloc: Global,
    asked: &ProfileIn,
    segments: &[SegmentIn],
    events: &[EventIn],
    a2l: &[u8],
) -> Result<Profile, Status>
    ensures ok { IfOk result (IsProfileOf asked.now segments.now events.now a2l.now) }
    ensures err { IfErr result (RefusesProfile asked.now segments.now events.now a2l.now) }
{
    let Some(id) = kind_numbered(asked.id) else {
        return Err(Status::BadLimits);
    };
    let Ok(name) = text_of(alloc, &asked.name) else {
        return Err(Status::Memory);
    };
    let Ok(segments) = segments_of(alloc, segments) else {
        return Err(Status::Memory);
    };
    let Ok(events) = events_of(alloc, events) else {
        return Err(Status::Memory);
    };
    let Ok((a2l_name, epk, a2l)) = texts_of(alloc, asked, a2l) else {
        return Err(Status::Memory);
    };
    Ok(Profile {
        segments,
        id,
        stamp_size: asked.stamp_size,
        unit: asked.unit,
        ticks: asked.ticks,
        max_cto: asked.max_cto,
        max_dto: asked.max_dto,
        name,
        events,
        a2l_name,
        epk,
        a2l,
    })
}

/// The profile that is asked for, if it is within its limits.
pub fn good_profile(
    alloc: Global,
    asked: &ProfileIn,
    segments: &[SegmentIn],
    events: &[EventIn],
    a2l: &[u8],
) -> Result<Profile, Status>
    ensures ok { IfOk result (IsGoodProfileOf asked.now segments.now events.now a2l.now) }
    ensures err { IfErr result (RefusesProfile asked.now segments.now events.now a2l.now) }
{
    let profile = profile_of(alloc, asked, segments, events, a2l)?;
    match profile.fault() {
        None => Ok(profile),
        Some(_) => Err(Status::BadLimits),
    }
}
