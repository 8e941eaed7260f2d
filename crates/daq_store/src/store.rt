//! The store, with one call for each DAQ command: it is checked, and then carried out.
ghost use Rattle.std.specs.Prelude.{◌≡◌, ◌≢◌, ◌≤◌, ◌↔◌, [], IsOk, IfOk, IfErr, OnOk, OnErr};
ghost use Rattle.std.specs.Prelude.{IsSome, Some};
ghost use Rattle.xcp_base.specs.declared.limits.TheConstants.{MAX_ODTS, RUN_CHANNELS, RUN_ENTRIES};
ghost use Rattle.xcp_base.specs.Forms.{form_of, form_with, usual_form};
ghost use Rattle.daq_store.specs.Limited.{AreAllowed};
ghost use Rattle.segments.specs.Image.{image_segments};

use crate::command::Command;
use crate::entry::Entry;
use crate::limits::Limits;
use crate::list_state::ListState;
use crate::mode::{Mode, TIMESTAMP};
use crate::phase::Phase;
use crate::refusal::{BadLimits, Refusal};
use crate::reply::Reply;
use segments::Segments;
use std::alloc::Global;
use std::marker::Model;
use xcp_base::limits::{MAX_CHANNELS, MAX_IMAGE_LEN, MAX_STAMP};
use xcp_base::{IdKind, PacketForm};

/// The DAQ lists of a slave, the DAQ pointer and the phase of the allocation.
///
/// A call whose description begins with a command is what this command does (ASAM MCD-1 XCP,
/// protocol layer, at the command).
///
/// Contracts speak of a store by the calls that it accepted since the last FREE_DAQ: it *stands
/// after* them. A refused call leaves it as it was.
#[derive(Drop)]
pub struct Store {
    pub(crate) alloc: Global,
    pub(crate) channels: u16,
    pub(crate) most_odts: u8,
    pub(crate) most_entries: u8,
    pub(crate) segments: Segments,
    pub(crate) form: PacketForm,
    pub(crate) lists: Vec<ListState>,
    pub(crate) pointer: Option<(u16, u8, u8)>,
    pub(crate) phase: Phase,
}

impl Model for Store {
    ghost use Rattle.daq_store.specs.Standing.{StoreState};

    ghost Value = { StoreState };

    ghost use Rattle.daq_store.specs.Standing.{IsStore};

    ghost view = { λ a. record {
      profile = record {
        channels = a.channels;
        most_odts = a.most_odts;
        most_entries = a.most_entries;
        segments = a.segments;
        form = a.form;
      };
      lists = a.lists.items;
      pointer = a.pointer;
      phase = a.phase;
    } };

    ghost invariant = { λ a. IsStore (record {
      profile = record {
        channels = a.channels;
        most_odts = a.most_odts;
        most_entries = a.most_entries;
        segments = a.segments;
        form = a.form;
      };
      lists = a.lists.items;
      pointer = a.pointer;
      phase = a.phase;
    }) };
}

impl Store {
    ghost use Rattle.daq_store.specs.Answer.{read_reply};
    ghost use Rattle.daq_store.specs.Standing.{StoreStandsAfter, Accepts, Refuses};

    /// A store without lists, as after FREE_DAQ, for 1 to 8 event channels and an image of 1 to
    /// 4096 bytes: one segment, which each of them may read. Its packets have an absolute ODT
    /// number, and timestamps of 4 bytes; its limits are those of a run. It takes no memory; the
    /// allocator is kept for the three allocations.
    pub fn new(alloc: Global, channels: u16, image_len: usize) -> Result<Store, BadLimits>
        ensures limits { IsOk result ↔ ((1 ≤ channels) × (channels ≤ RUN_CHANNELS)
            × (1 ≤ image_len) × (image_len ≤ MAX_IMAGE_LEN)) }
        ensures profile { IfOk result (λ s. s.profile ≡ record {
          channels = channels;
          most_odts = MAX_ODTS;
          most_entries = RUN_ENTRIES;
          segments = image_segments image_len;
          form = usual_form;
        }) }
        ensures fresh { IfOk result (λ s. StoreStandsAfter s []) }
    {
        Store::with_id(alloc, channels, image_len, IdKind::Absolute)
    }

    /// The same with this identification field, for a whole run.
    pub fn with_id(
        alloc: Global,
        channels: u16,
        image_len: usize,
        id: IdKind,
    ) -> Result<Store, BadLimits>
        ensures limits { IsOk result ↔ ((1 ≤ channels) × (channels ≤ RUN_CHANNELS)
            × (1 ≤ image_len) × (image_len ≤ MAX_IMAGE_LEN)) }
        ensures profile { IfOk result (λ s. s.profile ≡ record {
          channels = channels;
          most_odts = MAX_ODTS;
          most_entries = RUN_ENTRIES;
          segments = image_segments image_len;
          form = record usual_form { id = id };
        }) }
        ensures fresh { IfOk result (λ s. StoreStandsAfter s []) }
    {
        Store::with_form(alloc, channels, image_len, id, MAX_STAMP)
    }

    /// The same with this identification field, and timestamps of so many bytes: 1, 2 or 4.
    pub fn with_form(
        alloc: Global,
        channels: u16,
        image_len: usize,
        id: IdKind,
        stamp_size: u8,
    ) -> Result<Store, BadLimits>
        ensures limits { IsOk result ↔ ((1 ≤ channels) × (channels ≤ RUN_CHANNELS)
            × (1 ≤ image_len) × (image_len ≤ MAX_IMAGE_LEN) × IsSome (form_of id stamp_size)) }
        ensures profile { IfOk result (λ s. (s.profile.channels ≡ channels)
            × (s.profile.most_odts ≡ MAX_ODTS) × (s.profile.most_entries ≡ RUN_ENTRIES)
            × (s.profile.segments ≡ image_segments image_len)) }
        ensures form { IfOk result (λ s. form_of id stamp_size ≡ Some s.profile.form) }
        ensures fresh { IfOk result (λ s. StoreStandsAfter s []) }
    {
        if image_len == 0 || image_len > MAX_IMAGE_LEN {
            return Err(BadLimits);
        }
        Store::over(
            alloc,
            channels,
            Segments::of_image(image_len),
            id,
            stamp_size,
            Limits::of_runs(),
        )
    }

    /// The same for these segments and limits: its entries lie in them, and a list is ready only if
    /// its event channel may read those in which its entries lie.
    pub fn over(
        alloc: Global,
        channels: u16,
        segments: Segments,
        id: IdKind,
        stamp_size: u8,
        limits: Limits,
    ) -> Result<Store, BadLimits>
        ensures limits { IsOk result ↔ ((1 ≤ channels) × (channels ≤ limits.channels)
            × (channels ≤ MAX_CHANNELS) × AreAllowed limits
            × IsSome (form_with id stamp_size limits.max_dto)) }
        ensures profile { IfOk result (λ s. (s.profile.channels ≡ channels)
            × (s.profile.most_odts ≡ limits.odts) × (s.profile.most_entries ≡ limits.entries)
            × (s.profile.segments ≡ segments)) }
        ensures form { IfOk result
            (λ s. form_with id stamp_size limits.max_dto ≡ Some s.profile.form) }
        ensures fresh { IfOk result (λ s. StoreStandsAfter s []) }
    {
        if channels == 0 || channels > limits.channels || channels > MAX_CHANNELS {
            return Err(BadLimits);
        }
        if !limits.are_allowed() {
            return Err(BadLimits);
        }
        let Some(form) = PacketForm::with(id, stamp_size, limits.max_dto) else {
            return Err(BadLimits);
        };
        Ok(Store {
            alloc,
            channels,
            most_odts: limits.odts,
            most_entries: limits.entries,
            segments,
            form,
            lists: Vec::new(alloc),
            pointer: None,
            phase: Phase::Free,
        })
    }

    /// FREE_DAQ: gives up all DAQ lists, also those that run; the pointer is undefined.
    pub fn free_daq(&mut self)
        ensures fresh { StoreStandsAfter self.new [] }
        ensures profile_stays { self.new.profile ≡ self.old.profile }
    {
        self.lists = Vec::new(self.alloc);
        self.pointer = None;
        self.phase = Phase::Free;
    }

    /// ALLOC_DAQ: `count` fresh DAQ lists in place of all earlier ones; 0 is accepted.
    ///
    /// Refused in this order: ERR_DAQ_ACTIVE while a list runs, ERR_SEQUENCE after ALLOC_ODT or
    /// ALLOC_ODT_ENTRY, ERR_MEMORY_OVERFLOW over 16 lists, lack of memory.
    pub fn alloc_daq(&mut self, count: u16) -> Result<(), Refusal>
        ensures accepted { OnOk result
            (Accepts self.old self.new (Command.AllocDaq count) Reply.Positive) }
        ensures refused { IfErr result (Refuses self.old (Command.AllocDaq count)) }
        ensures unchanged { OnErr result (self.new ≡ self.old) }
        ensures profile_stays { self.new.profile ≡ self.old.profile }
    {
        self.check_alloc_daq(count)?;
        self.put_lists(count)?;
        Ok(())
    }

    /// ALLOC_ODT: `count` ODTs without entries in place of those of the DAQ list, whose mode and
    /// selection stay; the pointer is undefined; 0 is accepted.
    ///
    /// Refused in this order: ERR_DAQ_ACTIVE while a list runs, ERR_SEQUENCE before ALLOC_DAQ or
    /// after ALLOC_ODT_ENTRY, ERR_OUT_OF_RANGE without such a list, ERR_MEMORY_OVERFLOW over the
    /// limit or, with an absolute ODT number, over 124 ODTs of all lists, lack of memory.
    pub fn alloc_odt(&mut self, list: u16, count: u8) -> Result<(), Refusal>
        ensures accepted { OnOk result
            (Accepts self.old self.new (Command.AllocOdt list count) Reply.Positive) }
        ensures refused { IfErr result (Refuses self.old (Command.AllocOdt list count)) }
        ensures unchanged { OnErr result (self.new ≡ self.old) }
        ensures profile_stays { self.new.profile ≡ self.old.profile }
    {
        self.check_alloc_odt(list, count)?;
        self.put_odts(list, count)?;
        Ok(())
    }

    /// ALLOC_ODT_ENTRY: `count` unwritten entries in place of those of the ODT; the pointer is
    /// undefined; 0 is accepted.
    ///
    /// Refused in this order: ERR_DAQ_ACTIVE while a list runs, ERR_SEQUENCE before ALLOC_ODT,
    /// ERR_OUT_OF_RANGE without such a list or ODT, ERR_MEMORY_OVERFLOW over the limit of entries,
    /// lack of memory.
    pub fn alloc_odt_entry(&mut self, list: u16, odt: u8, count: u8) -> Result<(), Refusal>
        ensures accepted { OnOk result
            (Accepts self.old self.new (Command.AllocOdtEntry list odt count) Reply.Positive) }
        ensures refused { IfErr result (Refuses self.old (Command.AllocOdtEntry list odt count)) }
        ensures unchanged { OnErr result (self.new ≡ self.old) }
        ensures profile_stays { self.new.profile ≡ self.old.profile }
    {
        self.check_alloc_odt_entry(list, odt, count)?;
        self.put_entries(list, odt, count)?;
        Ok(())
    }

    /// SET_DAQ_PTR: the pointer is at this entry.
    ///
    /// Refused in this order: ERR_DAQ_ACTIVE while the list runs, ERR_OUT_OF_RANGE without such a
    /// list, ODT or entry.
    pub fn set_ptr(&mut self, list: u16, odt: u8, entry: u8) -> Result<(), Refusal>
        ensures accepted { OnOk result
            (Accepts self.old self.new (Command.SetDaqPtr list odt entry) Reply.Positive) }
        ensures refused { IfErr result (Refuses self.old (Command.SetDaqPtr list odt entry)) }
        ensures memory { result ≢ Err Refusal.Memory }
        ensures unchanged { OnErr result (self.new ≡ self.old) }
        ensures profile_stays { self.new.profile ≡ self.old.profile }
    {
        self.check_set_ptr(list, odt, entry)?;
        self.put_pointer(list, odt, entry);
        Ok(())
    }

    /// WRITE_DAQ: the entry at the pointer has this address extension, address and size in bytes,
    /// and the pointer moves to the next entry of the same ODT; after the last one it is undefined.
    ///
    /// Refused in this order: ERR_DAQ_ACTIVE while the list at the pointer runs, ERR_SEQUENCE with
    /// an undefined pointer, ERR_OUT_OF_RANGE for a bit offset other than 0xFF, a size of 0
    /// or over the limit, or an entry that lies in no segment.
    pub fn write(&mut self, bit: u8, size: u8, ext: u8, addr: u32) -> Result<(), Refusal>
        ensures accepted { OnOk result
            (Accepts self.old self.new (Command.WriteDaq bit size ext addr) Reply.Positive) }
        ensures refused { IfErr result (Refuses self.old (Command.WriteDaq bit size ext addr)) }
        ensures memory { result ≢ Err Refusal.Memory }
        ensures unchanged { OnErr result (self.new ≡ self.old) }
        ensures profile_stays { self.new.profile ≡ self.old.profile }
    {
        let (list, odt, entry) = self.check_write(bit, size, ext, addr)?;
        self.put_entry(
            list,
            odt,
            entry,
            Entry {
                extension: ext,
                address: addr,
                size,
            },
        );
        Ok(())
    }

    /// READ_DAQ: the entry at the pointer, if it is written, also of a list that runs; the pointer
    /// moves on as by WRITE_DAQ.
    ///
    /// Refused with ERR_SEQUENCE with an undefined pointer.
    pub fn read(&mut self) -> Result<Option<Entry>, Refusal>
        ensures accepted { IfOk result
            (λ entry. Accepts self.old self.new Command.ReadDaq (read_reply entry)) }
        ensures refused { IfErr result (Refuses self.old Command.ReadDaq) }
        ensures memory { result ≢ Err Refusal.Memory }
        ensures unchanged { OnErr result (self.new ≡ self.old) }
        ensures profile_stays { self.new.profile ≡ self.old.profile }
    {
        let (list, odt, entry) = self.check_read()?;
        let value = self.entry_at(list, odt, entry);
        self.move_on(list, odt, entry);
        Ok(value)
    }

    /// CLEAR_DAQ_LIST: each entry of the list is unwritten and no mode is set, it doesn't run and
    /// isn't selected; the pointer is undefined, wherever it was. A list that runs is cleared
    /// too.
    ///
    /// Refused with ERR_OUT_OF_RANGE without such a list.
    pub fn clear(&mut self, list: u16) -> Result<(), Refusal>
        ensures accepted { OnOk result
            (Accepts self.old self.new (Command.ClearDaqList list) Reply.Positive) }
        ensures refused { IfErr result (Refuses self.old (Command.ClearDaqList list)) }
        ensures memory { result ≢ Err Refusal.Memory }
        ensures unchanged { OnErr result (self.new ≡ self.old) }
        ensures profile_stays { self.new.profile ≡ self.old.profile }
    {
        self.check_clear(list)?;
        self.put_cleared(list);
        Ok(())
    }

    /// SET_DAQ_LIST_MODE: channel, prescaler, timestamp (mode bit 0x10) and priority of the list;
    /// any priority is accepted, and has no effect.
    ///
    /// Refused in this order: ERR_DAQ_ACTIVE while the list runs, ERR_OUT_OF_RANGE without such a
    /// list or channel or for a prescaler of 0, ERR_MODE_NOT_VALID for a mode bit other than 0x10.
    pub fn set_mode(
        &mut self,
        mode: u8,
        list: u16,
        channel: u16,
        prescaler: u8,
        priority: u8,
    ) -> Result<(), Refusal>
        ensures accepted { OnOk result (Accepts self.old self.new
            (Command.SetDaqListMode mode list channel prescaler priority) Reply.Positive) }
        ensures refused { IfErr result (Refuses self.old
            (Command.SetDaqListMode mode list channel prescaler priority)) }
        ensures memory { result ≢ Err Refusal.Memory }
        ensures unchanged { OnErr result (self.new ≡ self.old) }
        ensures profile_stays { self.new.profile ≡ self.old.profile }
    {
        self.check_set_mode(mode, list, channel, prescaler, priority)?;
        self.put_mode(
            list,
            Mode {
                channel: channel as u8,
                prescaler,
                stamped: mode == TIMESTAMP,
                priority,
            },
        );
        Ok(())
    }

    /// START_STOP_DAQ_LIST: stops (mode 0), starts (1) or selects (2) the list, and returns its
    /// FIRST_PID. A stop or start ends the selection; a start of a list that runs and a stop of one
    /// that doesn't are accepted.
    ///
    /// Refused in this order: ERR_OUT_OF_RANGE without such a list, ERR_MODE_NOT_VALID for a mode
    /// over 2, ERR_DAQ_CONFIG for the start of a list that isn't ready, as one with an entry in a
    /// segment that its event channel may not read.
    pub fn start_stop(&mut self, mode: u8, list: u16) -> Result<u8, Refusal>
        ensures accepted { IfOk result (λ pid. Accepts self.old self.new
            (Command.StartStopDaqList mode list) (Reply.Started pid)) }
        ensures refused { IfErr result (Refuses self.old (Command.StartStopDaqList mode list)) }
        ensures memory { result ≢ Err Refusal.Memory }
        ensures unchanged { OnErr result (self.new ≡ self.old) }
        ensures profile_stays { self.new.profile ≡ self.old.profile }
    {
        self.check_start_stop(mode, list)?;
        let first_pid = self.first_pid_at(list);
        self.put_start_stop(mode, list);
        Ok(first_pid)
    }

    /// START_STOP_SYNCH: stops all lists (mode 0), starts (1) or stops (2) the selected ones; none
    /// is selected then. With none selected, 1 and 2 change nothing.
    ///
    /// Refused in this order: ERR_MODE_NOT_VALID for a mode over 2, ERR_DAQ_CONFIG for mode 1 where
    /// a selected list isn't ready; then no list is started.
    pub fn synch(&mut self, mode: u8) -> Result<(), Refusal>
        ensures accepted { OnOk result
            (Accepts self.old self.new (Command.StartStopSynch mode) Reply.Positive) }
        ensures refused { IfErr result (Refuses self.old (Command.StartStopSynch mode)) }
        ensures memory { result ≢ Err Refusal.Memory }
        ensures unchanged { OnErr result (self.new ≡ self.old) }
        ensures profile_stays { self.new.profile ≡ self.old.profile }
    {
        self.check_synch(mode)?;
        self.put_synch(mode);
        Ok(())
    }
}
