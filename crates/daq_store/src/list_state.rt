//! A DAQ list in the store: what is set of it, and whether it runs or is selected.
ghost use Rattle.std.specs.Prelude.{◌≡◌, IfOk, replicate};
ghost use Rattle.xcp_base.specs.Forms.{IsForm};
ghost use Rattle.daq_store.specs.Inner.Effects.{cleared, fresh_state, start_stopped, synched};

use crate::list_conf::ListConf;
use std::alloc::{AllocError, Global};
use xcp_base::PacketForm;

/// The mode of START_STOP_DAQ_LIST that starts a DAQ list, and of START_STOP_SYNCH that starts the
/// selected ones.
pub const START: u8 = 1;

/// The mode of START_STOP_DAQ_LIST that selects a DAQ list.
pub const SELECT: u8 = 2;

/// The mode of START_STOP_SYNCH that stops all DAQ lists.
pub const STOP_ALL: u8 = 0;

/// A DAQ list of the store.
#[derive(Drop)]
pub struct ListState {
    pub conf: ListConf,
    pub running: bool,
    pub selected: bool,
}

impl ListState {
    /// Clears what is set of the list, stops it and ends its selection.
    pub fn clear(&mut self)
        ensures { self.new ≡ cleared self.old }
    {
        self.conf.clear();
        self.running = false;
        self.selected = false;
    }

    /// Stops, starts or selects the list.
    pub fn start_stop(&mut self, mode: u8)
        ensures { self.new ≡ start_stopped mode self.old }
    {
        self.selected = mode == SELECT;
        if mode != SELECT {
            self.running = mode == START;
        }
    }

    /// Stops or starts the list with the selected ones, or stops it with all.
    pub fn synch(&mut self, mode: u8)
        ensures { self.new ≡ synched mode self.old }
    {
        if mode == STOP_ALL || self.selected {
            self.running = mode == START;
        }
        self.selected = false;
    }
}

/// So many lists as they are when they are allocated.
pub fn fresh_lists(
    alloc: Global,
    form: PacketForm,
    count: usize,
) -> Result<Vec<ListState>, AllocError>
    requires form { IsForm form }
    ensures { IfOk result (λ lists. lists.items ≡ replicate count (fresh_state form)) }
{
    let mut lists = Vec::with_capacity(alloc, count)?;
    for _ in 0..count {
        lists.push_reserved(ListState {
            conf: ListConf::new(alloc, form),
            running: false,
            selected: false,
        });
    }
    Ok(lists)
}
