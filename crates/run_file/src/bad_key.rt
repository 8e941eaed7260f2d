//! The first key of a run file that is wrong.
ghost use Rattle.std.specs.Prelude.{IfOk, IfSome};
ghost use Rattle.toml.specs.View.{table_view};
ghost use Rattle.run_file.specs.Keys.{HasBadKey};

use crate::keys::{
    are_keys, array_at, caps_in, drain_of, id_of, number_at, ring_of, stamp_of, texts_at,
};
use crate::limits::{MAX_PACKETS, MAX_STEPS};
use std::alloc::{AllocError, Global};
use toml::Table;
use xcp_base::limits::{MAX_IMAGE_LEN, RUN_CHANNELS};

/// The key for which a table is no run.
#[derive(Clone, Copy, Debug, PartialEq, Eq)]
pub enum BadKey {
    /// A key that is none of a run file.
    Unknown,
    Channels,
    ImageLen,
    Drain,
    Setup,
    Steps,
    Id,
    StampSize,
    Ring,
    Caps,
}

impl BadKey {
    /// The first bad key of a table, in the order in which `Run::read` looks; none if all keys are
    /// good. Lack of memory is the only fault.
    pub fn of(alloc: Global, table: &Table) -> Result<Option<BadKey>, AllocError>
        ensures { IfOk result (λ bad. IfSome bad (λ _. HasBadKey (table_view table.now))) }
    {
        if !are_keys(table) {
            return Ok(Some(BadKey::Unknown));
        }
        let Some(channels) = number_at(table, "channels", 1, RUN_CHANNELS as usize) else {
            return Ok(Some(BadKey::Channels));
        };
        let None = bad_value(table) else {
            return Ok(bad_value(table));
        };
        let Some(ring) = ring_of(table) else {
            return Ok(Some(BadKey::Ring));
        };
        let Some(numbers) = array_at(table, "caps") else {
            return Ok(Some(BadKey::Caps));
        };
        match caps_in(alloc, ring, channels, numbers)? {
            Some(_) => Ok(None),
            None => Ok(Some(BadKey::Caps)),
        }
    }
}

/// The first bad one of the keys whose values stand for themselves.
fn bad_value(table: &Table) -> Option<BadKey>
    ensures { IfSome result (λ _. HasBadKey (table_view table.now)) }
{
    let Some(_) = number_at(table, "image_len", 1, MAX_IMAGE_LEN) else {
        return Some(BadKey::ImageLen);
    };
    let Some(_) = drain_of(table) else {
        return Some(BadKey::Drain);
    };
    let Some(_) = texts_at(table, "setup", MAX_PACKETS) else {
        return Some(BadKey::Setup);
    };
    let Some(_) = texts_at(table, "steps", MAX_STEPS) else {
        return Some(BadKey::Steps);
    };
    let Some(_) = id_of(table) else {
        return Some(BadKey::Id);
    };
    let Some(_) = stamp_of(table) else {
        return Some(BadKey::StampSize);
    };
    None
}
