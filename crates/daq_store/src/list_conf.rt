//! What is set of a DAQ list, and whether this makes the list ready to be started.
ghost use Rattle.std.specs.Prelude.{◌≡◌, ◌+◌, ◌*◌, ◌<◌, ◌≤◌, [], None};
ghost use Rattle.std.specs.Prelude.{IfOk, IfSome, IsSome, OnErr, OnOk};
ghost use Rattle.std.specs.Prelude.{Some, length, map, option_map, replicate, slice_set};
ghost use Rattle.xcp_base.specs.Forms.{IsForm, field_len, stamp_bytes};
ghost use Rattle.xcp_base.specs.Packets.{packet_len, stamp_len};
ghost use Rattle.daq_store.specs.Configuration.{channel_of, prescaler_of, priority_of, is_stamped};
ghost use Rattle.daq_store.specs.Configuration.{entries_len, entry_of, is_ready, odt_entries};
ghost use Rattle.daq_store.specs.Configuration.{fresh_conf, IsMode};
ghost use Rattle.daq_store.specs.Inner.Effects.{unwritten};

use crate::entry::Entry;
use crate::mode::Mode;
use crate::odt::Odt;
use segments::Segments;
use std::alloc::{AllocError, Global};
use std::marker::Model;
use xcp_base::limits::{
    MAX_CHANNELS, MAX_ENTRIES, MAX_ENTRY_SIZE, MAX_FIELD, MAX_ODTS_IN_ALL, MAX_STAMP,
};
use xcp_base::{IdKind, PacketForm};

/// What is set of a DAQ list: its mode, and the entries of its ODTs; and the form of its packets,
/// which is that of the store.
#[derive(Drop)]
pub struct ListConf {
    form: PacketForm,
    mode: Option<Mode>,
    odts: Vec<Odt>,
}

impl Model for ListConf {
    ghost use Rattle.daq_store.specs.Configuration.{Configuration, IsWithinLimits};

    ghost Value = { Configuration };

    ghost view = { λ a. record { form = a.form; mode = a.mode; odts = a.odts.items } };

    ghost invariant = { λ a. IsWithinLimits (record {
      form = a.form;
      mode = a.mode;
      odts = a.odts.items;
    }) };
}

impl ListConf {
    /// The identification field of its packets.
    pub fn id(&self) -> IdKind
        ensures { result ≡ self.now.form.id }
    {
        self.form.id
    }

    /// The bytes of a timestamp: 1, 2 or 4.
    pub fn stamp_size(&self) -> u8
        ensures { result ≡ stamp_bytes self.now.form.stamp }
    {
        self.form.stamp.bytes()
    }

    /// The identification field, the timestamp's size and MAX_DTO, in one.
    pub fn form(&self) -> PacketForm
        ensures value { result ≡ self.now.form }
        ensures limits { IsForm result }
    {
        self.form
    }

    /// The event channel; 0 without a mode.
    pub fn channel(&self) -> u8
        ensures value { result ≡ channel_of self.now.mode }
        ensures limit { result < MAX_CHANNELS }
    {
        match self.mode {
            Some(mode) => mode.channel,
            None => 0,
        }
    }

    /// The prescaler; 0 without a mode.
    pub fn prescaler(&self) -> u8
        ensures value { result ≡ prescaler_of self.now.mode }
        ensures positive { IsSome self.now.mode → 0 < result }
    {
        match self.mode {
            Some(mode) => mode.prescaler,
            None => 0,
        }
    }

    /// TIMESTAMP: whether samples carry one; not without a mode.
    pub fn stamped(&self) -> bool
        ensures { result ≡ is_stamped self.now.mode }
    {
        match self.mode {
            Some(mode) => mode.stamped,
            None => false,
        }
    }

    /// The priority; 0 without a mode.
    pub fn priority(&self) -> u8
        ensures { result ≡ priority_of self.now.mode }
    {
        match self.mode {
            Some(mode) => mode.priority,
            None => 0,
        }
    }

    /// The number of ODTs.
    pub fn odts(&self) -> usize
        ensures count { result ≡ length self.now.odts }
        ensures limit { result ≤ MAX_ODTS_IN_ALL }
    {
        self.odts.len()
    }

    /// The number of entries of an ODT; 0 if there is no such ODT.
    pub fn entries(&self, odt: usize) -> usize
        ensures count { result ≡ length (odt_entries self.now odt) }
        ensures limit { result ≤ MAX_ENTRIES }
    {
        match self.odts.get(odt) {
            Some(odt) => odt.entries(),
            None => 0,
        }
    }

    /// An entry, if it is there and written.
    pub fn written(&self, odt: usize, entry: usize) -> Option<Entry>
        ensures value { result ≡ entry_of self.now odt entry }
        ensures size { IfSome result (λ x. (0 < x.size) × (x.size ≤ MAX_ENTRY_SIZE)) }
    {
        self.odts.get(odt)?.entry(entry)
    }

    /// The address and the size in bytes of an entry, if it is there and written.
    pub fn entry(&self, odt: usize, entry: usize) -> Option<(u32, u8)>
        ensures value { result
            ≡ option_map (λ x. (x.address, x.size)) (entry_of self.now odt entry) }
        ensures size { IfSome result (λ x. (0 < x.1) × (x.1 ≤ MAX_ENTRY_SIZE)) }
    {
        let entry = self.written(odt, entry)?;
        Some((entry.address, entry.size))
    }

    /// Whether a mode was set, there is an ODT, each ODT has an entry, each entry is written and
    /// lies in a segment that the list's event channel may read, and each packet in its form has at
    /// most MAX_DTO bytes.
    pub fn ready(&self, segments: &Segments) -> bool
        ensures { result ≡ is_ready segments.now self.now }
    {
        if self.mode.is_none() {
            return false;
        }
        let channel = self.channel();
        let most = self.max_dto();
        for (k, odt) in self.odts.iter().enumerate() {
            if !odt.is_filled(channel, segments) {
                return false;
            }
            if self.packet_len(k) > most {
                return false;
            }
        }
        !self.odts.is_empty()
    }

    /// The bytes of the packet of an ODT.
    pub fn packet_len(&self, odt: usize) -> usize
        requires { odt < length self.now.odts }
        ensures value { result ≡ packet_len self.now.form (is_stamped self.now.mode) odt
            (entries_len self.now odt) }
        ensures limit { result ≤ MAX_FIELD + MAX_STAMP + MAX_ENTRIES * MAX_ENTRY_SIZE }
    {
        self.field_len() + self.stamp_len(odt) + self.odts[odt].bytes()
    }

    /// MAX_DTO: the most bytes of a packet.
    fn max_dto(&self) -> usize
        ensures { result ≡ self.now.form.max_dto }
    {
        self.form.max_dto as usize
    }

    /// The bytes of the identification field.
    fn field_len(&self) -> usize
        ensures value { result ≡ field_len self.now.form.id }
        ensures limit { result ≤ MAX_FIELD }
    {
        self.form.id.field_len()
    }

    /// The bytes of the timestamp in the packet of an ODT: there is one in ODT 0 of a stamped list.
    fn stamp_len(&self, odt: usize) -> usize
        ensures value { result ≡ stamp_len self.now.form.stamp (is_stamped self.now.mode) odt }
        ensures limit { result ≤ MAX_STAMP }
    {
        if odt == 0 && self.stamped() {
            self.form.stamp.bytes() as usize
        } else {
            0
        }
    }

    /// A list as it is when it is allocated.
    pub(crate) fn new(alloc: Global, form: PacketForm) -> ListConf
        requires form { IsForm form }
        ensures { result ≡ fresh_conf form }
    {
        ListConf {
            form,
            mode: None,
            odts: Vec::new(alloc),
        }
    }

    /// Unsets the mode, and makes the entries unwritten.
    pub(crate) fn clear(&mut self)
        ensures { self.new
            ≡ record self.old { mode = None; odts = map unwritten self.old.odts } }
    {
        clear_all(&mut self.odts);
        self.mode = None;
    }

    /// Sets the mode.
    pub(crate) fn set_mode(&mut self, mode: Mode)
        requires { IsMode mode }
        ensures { self.new ≡ record self.old { mode = Some mode } }
    {
        self.mode = Some(mode);
    }

    /// Puts ODTs without entries in the place of the earlier ones.
    pub(crate) fn allocate_odts(&mut self, alloc: Global, count: usize) -> Result<(), AllocError>
        requires { count ≤ MAX_ODTS_IN_ALL }
        ensures ok { OnOk result (self.new ≡ record self.old { odts = replicate count [] }) }
        ensures err { OnErr result (self.new ≡ self.old) }
    {
        let odts = empty_odts(alloc, count)?;
        self.odts = odts;
        Ok(())
    }

    /// Puts unwritten entries in the place of the earlier ones of an ODT.
    pub(crate) fn allocate_entries(
        &mut self,
        alloc: Global,
        odt: usize,
        count: usize,
    ) -> Result<(), AllocError>
        requires odt { odt < length self.old.odts }
        requires count { count ≤ MAX_ENTRIES }
        ensures ok { OnOk result (self.new
            ≡ record self.old { odts = slice_set self.old.odts odt (replicate count None) }) }
        ensures err { OnErr result (self.new ≡ self.old) }
    {
        let entries = Odt::unwritten(alloc, count)?;
        self.odts[odt] = entries;
        Ok(())
    }

    /// Writes an entry.
    pub(crate) fn write(&mut self, odt: usize, entry: usize, value: Entry)
        requires entry { entry < length (odt_entries self.old odt) }
        requires size { (0 < value.size) × (value.size ≤ MAX_ENTRY_SIZE) }
        ensures { self.new ≡ record self.old {
          odts =
              slice_set self.old.odts odt (slice_set (odt_entries self.old odt) entry (Some value));
        } }
    {
        let odt = &mut self.odts[odt];
        odt.write(entry, value);
    }
}

/// Makes the entries of ODTs unwritten.
fn clear_all(odts: &mut [Odt])
    ensures { odts.new ≡ map unwritten odts.old }
{
    for odt in odts.iter_mut() {
        odt.clear();
    }
}

/// So many ODTs without entries.
fn empty_odts(alloc: Global, count: usize) -> Result<Vec<Odt>, AllocError>
    ensures { IfOk result (λ odts. odts.items ≡ replicate count []) }
{
    let mut odts = Vec::with_capacity(alloc, count)?;
    for _ in 0..count {
        odts.push_reserved(Odt::new(alloc));
    }
    Ok(odts)
}
