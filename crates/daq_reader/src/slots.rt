//! Where the bytes of each entry stand in an ODT.
ghost use Rattle.std.specs.Prelude.{◌≡◌, IfOk, IfSome, length, option_map, slice_get};
ghost use Rattle.daq_store.specs.Configuration.{channel_of, odt_entries};
ghost use Rattle.copy_plan.specs.Config.{written_entries};
ghost use Rattle.daq_reader.specs.Inner.Slots.{IsSlotAt, bytes_of, entry_of};

use daq_store::ListConf;
use segments::{Segments, image_place};
use std::alloc::{AllocError, Global};
use std::marker::Model;

/// An entry: where it stands in the image of all memory, its bytes, and where it stands among the
/// elements of its ODT.
#[derive(Clone, Copy)]
pub struct Slot {
    pub in_image: usize,
    pub size: u8,
    pub start: usize,
}

/// The entries of one ODT in their order.
#[derive(Drop)]
pub struct Slots {
    slots: Vec<Slot>,
    len: usize,
}

impl Model for Slots {
    ghost use Rattle.std.specs.Prelude.{List};
    ghost use Rattle.copy_plan.specs.Config.{OdtEntry};
    ghost use Rattle.daq_reader.specs.Inner.Slots.{AreLaidOut, slots_view};

    ghost Value = { List OdtEntry };

    ghost view = { slots_view };

    ghost invariant = { AreLaidOut };
}

impl Slots {
    /// The entries of an ODT that are written, as the event channel of the list sees memory in
    /// segments.
    pub fn of(
        alloc: Global,
        conf: &ListConf,
        odt: usize,
        segments: &Segments,
    ) -> Result<Slots, AllocError>
        ensures { IfOk result (λ slots. slots
            ≡ written_entries (channel_of conf.now.mode) segments.now
            (odt_entries conf.now odt)) }
    {
        let channel = conf.channel();
        let mut slots = Vec::with_capacity(alloc, conf.entries(odt))?;
        let mut len = 0;
        for entry in 0..conf.entries(odt) {
            let Some(written) = conf.written(odt, entry) else {
                continue;
            };
            let address = written.address as usize;
            let size = written.size as usize;
            let place = image_place(
                segments.as_slice(),
                channel,
                written.extension,
                address,
                size,
            );
            slots.push(Slot {
                // each entry of a ready list has a place
                in_image: place.unwrap_or(0),
                size: written.size,
                start: len,
            })?;
            len += size;
        }
        Ok(Slots { slots, len })
    }

    /// The number of entries.
    pub fn count(&self) -> usize
        ensures { result ≡ length self.now }
    {
        self.slots.len()
    }

    /// The bytes of all entries.
    pub fn len(&self) -> usize
        ensures { result ≡ bytes_of self.now }
    {
        self.len
    }

    /// An entry and its place; `None` exactly if there is none.
    pub fn get(&self, entry: usize) -> Option<Slot>
        ensures entry { option_map entry_of result ≡ slice_get self.now entry }
        ensures place { IfSome result (IsSlotAt self.now entry) }
    {
        if entry >= self.slots.len() {
            return None;
        }
        Some(self.slots[entry])
    }
}
