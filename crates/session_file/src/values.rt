//! The keys of a session file become values; segments, event channels and lines are read later.
ghost use Rattle.std.specs.Prelude.{◌≡◌, IfErr, IfNone, IfOk, IfSome};
ghost use Rattle.toml.specs.View.{table_view};
ghost use Rattle.session_file.specs.declared.file_fault.FileFault.TheVariants.{BadKey};
ghost use Rattle.session_file.specs.Keys.{AreKeyValues, HasBadKey};
ghost use Rattle.session_file.specs.Inner.{ArePacketKeys, AreTextKeys, values_data};
ghost use Rattle.session_file.specs.Memory.{count_of};

use crate::file_fault::FileFault;
use crate::keys::{has_file_keys, packet_limit, text_or_empty};
use crate::limits::MAX_LINES;
use crate::memory_keys::{MemoryKeys, memory_of};
use run_file::{array_at, id_of, number_at, stamp_of, texts_at};
use toml::{Table, Value};
use xcp_base::limits::{MAX_CTO, MAX_PACKET, MAX_UNIT, MIN_CTO, MIN_DTO};
use xcp_base::{IdKind, StampSize};

/// The values of the keys, each of its type and within its limits. Segments and event channels are
/// still values, and lines still texts.
#[derive(Drop)]
pub struct Values<'a> {
    pub(crate) memory: MemoryKeys<'a>,
    pub(crate) id: IdKind,
    pub(crate) stamp: StampSize,
    pub(crate) unit: u8,
    pub(crate) ticks: u16,
    pub(crate) max_cto: u8,
    pub(crate) max_dto: u16,
    pub(crate) name: &'a str,
    pub(crate) a2l_name: &'a str,
    pub(crate) epk: &'a str,
    pub(crate) a2l: &'a str,
    pub(crate) events: &'a [Value],
    pub(crate) script: &'a [Value],
}

/// The values of the keys of a table.
pub fn values_of(table: &Table) -> Result<Values<'_>, FileFault>
    ensures ok { IfOk result (λ values. AreKeyValues (table_view table.now) (values_data values)) }
    ensures err { IfErr result (λ e. (e ≡ BadKey) × HasBadKey (table_view table.now)) }
{
    if !has_file_keys(table) {
        return Err(FileFault::BadKey);
    }
    let Some(memory) = memory_of(table) else {
        return Err(FileFault::BadKey);
    };
    let Some(packets) = packet_keys(table) else {
        return Err(FileFault::BadKey);
    };
    let Some(texts) = text_keys(table) else {
        return Err(FileFault::BadKey);
    };
    let Some(events) = array_at(table, "events") else {
        return Err(FileFault::BadKey);
    };
    let Some(script) = texts_at(table, "script", MAX_LINES) else {
        return Err(FileFault::BadKey);
    };
    Ok(Values {
        memory,
        id: packets.id,
        stamp: packets.stamp,
        unit: packets.unit,
        ticks: packets.ticks,
        max_cto: packets.max_cto,
        max_dto: packets.max_dto,
        name: texts.name,
        a2l_name: texts.a2l_name,
        epk: texts.epk,
        a2l: texts.a2l,
        events,
        script,
    })
}

/// The values of the keys that tell how packets look.
#[derive(Clone, Copy)]
struct PacketKeys {
    id: IdKind,
    stamp: StampSize,
    unit: u8,
    ticks: u16,
    max_cto: u8,
    max_dto: u16,
}

/// How packets look, by the keys of a table.
fn packet_keys(table: &Table) -> Option<PacketKeys>
    ensures some { IfSome result (ArePacketKeys (table_view table.now)) }
    ensures none { IfNone result (HasBadKey (table_view table.now)) }
{
    let Some(id) = id_of(table) else {
        return None;
    };
    let Some(stamp) = stamp_of(table) else {
        return None;
    };
    let Some(unit) = number_at(table, "unit", 0, MAX_UNIT as usize) else {
        return None;
    };
    let Some(ticks) = number_at(table, "ticks", 1, u16::MAX as usize) else {
        return None;
    };
    let Some(max_cto) = packet_limit(table, "max_cto", MIN_CTO, MAX_CTO) else {
        return None;
    };
    let Some(max_dto) = packet_limit(table, "max_dto", MIN_DTO as usize, MAX_PACKET) else {
        return None;
    };
    Some(PacketKeys {
        id,
        stamp,
        unit: unit as u8,
        ticks: ticks as u16,
        max_cto: max_cto as u8,
        max_dto: max_dto as u16,
    })
}

/// The values of the keys that are texts.
#[derive(Clone, Copy)]
struct TextKeys<'a> {
    name: &'a str,
    a2l_name: &'a str,
    epk: &'a str,
    a2l: &'a str,
}

/// The texts of a table.
fn text_keys(table: &Table) -> Option<TextKeys<'_>>
    ensures some { IfSome result (AreTextKeys (table_view table.now)) }
    ensures none { IfNone result (HasBadKey (table_view table.now)) }
{
    let Some(name) = text_or_empty(table, "name") else {
        return None;
    };
    let Some(a2l_name) = text_or_empty(table, "a2l_name") else {
        return None;
    };
    let Some(epk) = text_or_empty(table, "epk") else {
        return None;
    };
    let Some(a2l) = text_or_empty(table, "a2l") else {
        return None;
    };
    Some(TextKeys {
        name,
        a2l_name,
        epk,
        a2l,
    })
}

/// How many event channels the values have.
pub fn channels_of(values: &Values<'_>) -> usize
    ensures { result ≡ count_of (values_data values.now).events }
{
    values.events.len()
}
