//! The keys of a run file become values within their limits; packets and steps stay texts.
ghost use Rattle.std.specs.Prelude.{◌≡◌, ◌≤◌, ◌⊎◌, IfErr, IfOk};
ghost use Rattle.toml.specs.View.{table_view};
ghost use Rattle.run_file.specs.declared.run_fault.RunFault.TheVariants.{BadKey, Memory};
ghost use Rattle.run_file.specs.Keys.{AreKeyValues, HasBadKey};
ghost use Rattle.xcp_base.specs.declared.limits.TheConstants.{RUN_CHANNELS};
ghost use Rattle.run_file.specs.Inner.{values_data};

use crate::keys::{are_keys, array_at, caps_in, drain_of, form_of, number_at, ring_of, texts_at};
use crate::limits::{MAX_PACKETS, MAX_STEPS};
use crate::run_fault::RunFault;
use std::alloc::Global;
use toml::{Table, Value};
use xcp_base::limits::{MAX_IMAGE_LEN, RUN_CHANNELS};
use xcp_base::{PacketForm, RingKind};

/// The values of the keys, each of its type and within its limits. Packets and steps are still
/// texts.
#[derive(Drop)]
pub struct Values<'a> {
    pub(crate) channels: u16,
    pub(crate) image_len: usize,
    pub(crate) form: PacketForm,
    pub(crate) ring: RingKind,
    pub(crate) caps: Vec<usize>,
    pub(crate) setup: &'a [Value],
    pub(crate) steps: &'a [Value],
    pub(crate) drain: bool,
}

/// The values of the keys of a table.
pub fn values_of<'a>(alloc: Global, table: &'a Table) -> Result<Values<'a>, RunFault>
    ensures ok { IfOk result (λ values. AreKeyValues (table_view table.now) (values_data values)) }
    ensures within { IfOk result (λ values.
        (1 ≤ values.channels) × (values.channels ≤ RUN_CHANNELS)) }
    ensures err { IfErr result (λ e.
        (e ≡ Memory) ⊎ ((e ≡ BadKey) × HasBadKey (table_view table.now))) }
{
    if !are_keys(table) {
        return Err(RunFault::BadKey);
    }
    let Some(channels) = number_at(table, "channels", 1, RUN_CHANNELS as usize) else {
        return Err(RunFault::BadKey);
    };
    let Some(image_len) = number_at(table, "image_len", 1, MAX_IMAGE_LEN) else {
        return Err(RunFault::BadKey);
    };
    let Some(drain) = drain_of(table) else {
        return Err(RunFault::BadKey);
    };
    let Some(setup) = texts_at(table, "setup", MAX_PACKETS) else {
        return Err(RunFault::BadKey);
    };
    let Some(steps) = texts_at(table, "steps", MAX_STEPS) else {
        return Err(RunFault::BadKey);
    };
    let Some(form) = form_of(table) else {
        return Err(RunFault::BadKey);
    };
    let Some(ring) = ring_of(table) else {
        return Err(RunFault::BadKey);
    };
    let Some(numbers) = array_at(table, "caps") else {
        return Err(RunFault::BadKey);
    };
    let Ok(read) = caps_in(alloc, ring, channels, numbers) else {
        return Err(RunFault::Memory);
    };
    let Some(caps) = read else {
        return Err(RunFault::BadKey);
    };
    Ok(Values {
        channels: channels as u16,
        image_len,
        form,
        ring,
        caps,
        setup,
        steps,
        drain,
    })
}
