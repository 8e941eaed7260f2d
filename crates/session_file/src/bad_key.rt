//! The first key of a session file that is wrong.
ghost use Rattle.std.specs.Prelude.{IfSome};
ghost use Rattle.toml.specs.View.{table_view};
ghost use Rattle.session_file.specs.Keys.{HasBadKey};

use crate::keys::{has_file_keys, has_key, packet_limit, text_or_empty};
use crate::limits::MAX_LINES;
use crate::memory_keys::memory_of;
use run_file::{array_at, id_of, number_at, stamp_of, texts_at};
use toml::Table;
use xcp_base::limits::{MAX_CTO, MAX_IMAGE_LEN, MAX_PACKET, MAX_UNIT, MIN_CTO, MIN_DTO};

/// The key for which a table is no session.
#[derive(Clone, Copy, Debug, PartialEq, Eq)]
pub enum BadKey {
    /// A key that is none of a session file.
    Unknown,
    /// It is also the bad one if it is missing, and `segments` too.
    ImageLen,
    Base,
    Segments,
    Id,
    StampSize,
    Unit,
    Ticks,
    MaxCto,
    MaxDto,
    Name,
    A2lName,
    Epk,
    A2l,
    Events,
    Script,
}

impl BadKey {
    /// The first bad key of a table, in the order in which `SessionFile::read` looks; none if all
    /// keys are good.
    pub fn of(table: &Table) -> Option<BadKey>
        ensures { IfSome result (λ _. HasBadKey (table_view table.now)) }
    {
        if !has_file_keys(table) {
            return Some(BadKey::Unknown);
        }
        let Some(_) = memory_of(table) else {
            return Some(bad_memory(table));
        };
        bad_packet_key(table)
            .or(bad_text(table))
            .or(bad_list(table))
    }
}

/// The first bad key of those that tell how packets look.
fn bad_packet_key(table: &Table) -> Option<BadKey>
    ensures { IfSome result (λ _. HasBadKey (table_view table.now)) }
{
    let Some(_) = id_of(table) else {
        return Some(BadKey::Id);
    };
    let Some(_) = stamp_of(table) else {
        return Some(BadKey::StampSize);
    };
    let Some(_) = number_at(table, "unit", 0, MAX_UNIT as usize) else {
        return Some(BadKey::Unit);
    };
    let Some(_) = number_at(table, "ticks", 1, u16::MAX as usize) else {
        return Some(BadKey::Ticks);
    };
    let Some(_) = packet_limit(table, "max_cto", MIN_CTO, MAX_CTO) else {
        return Some(BadKey::MaxCto);
    };
    let Some(_) = packet_limit(table, "max_dto", MIN_DTO as usize, MAX_PACKET) else {
        return Some(BadKey::MaxDto);
    };
    None
}

/// The first bad key of the four texts.
fn bad_text(table: &Table) -> Option<BadKey>
    ensures { IfSome result (λ _. HasBadKey (table_view table.now)) }
{
    let Some(_) = text_or_empty(table, "name") else {
        return Some(BadKey::Name);
    };
    let Some(_) = text_or_empty(table, "a2l_name") else {
        return Some(BadKey::A2lName);
    };
    let Some(_) = text_or_empty(table, "epk") else {
        return Some(BadKey::Epk);
    };
    let Some(_) = text_or_empty(table, "a2l") else {
        return Some(BadKey::A2l);
    };
    None
}

/// The first bad key of the event channels and the script.
fn bad_list(table: &Table) -> Option<BadKey>
    ensures { IfSome result (λ _. HasBadKey (table_view table.now)) }
{
    let Some(_) = array_at(table, "events") else {
        return Some(BadKey::Events);
    };
    let Some(_) = texts_at(table, "script", MAX_LINES) else {
        return Some(BadKey::Script);
    };
    None
}

/// The first bad key of memory, if one is bad.
fn bad_memory(table: &Table) -> BadKey {
    if has_key(table, "segments") {
        return beside_segments(table);
    }
    let Some(_) = number_at(table, "image_len", 1, MAX_IMAGE_LEN) else {
        return BadKey::ImageLen;
    };
    BadKey::Base
}

/// The bad key of memory if `segments` is there: one that may not stand beside it, or itself.
fn beside_segments(table: &Table) -> BadKey {
    if has_key(table, "image_len") {
        return BadKey::ImageLen;
    }
    if has_key(table, "base") {
        return BadKey::Base;
    }
    BadKey::Segments
}
