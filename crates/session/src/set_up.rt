//! What was set of a DAQ list, kept to tell later whether it has changed.
ghost use Rattle.std.specs.Prelude.{◌≡◌, ◌↔◌, true, IfOk};
ghost use Rattle.session.specs.SetUps.{set_up_of};

use crate::mode_set_up::{self, ModeSetUp};
use crate::odt_set_up::OdtSetUp;
use daq_store::ListConf;
use std::alloc::{AllocError, Global};
use std::marker::Model;
use xcp_base::PacketForm;

/// How a DAQ list was set up: all that was set of it, but the priority, which has no effect.
#[derive(Drop)]
pub struct SetUp {
    form: PacketForm,
    mode: Option<ModeSetUp>,
    odts: Vec<OdtSetUp>,
}

impl Model for SetUp {
    ghost use Rattle.daq_store.specs.Configuration.{Configuration};
    ghost use Rattle.session.specs.SetUps.{mode_held};

    ghost Value = { Configuration };

    ghost view = { λ a. record { form = a.form; mode = mode_held a.mode; odts = a.odts.items } };
}

impl SetUp {
    /// That of a list, ready or not.
    pub fn of(alloc: Global, conf: &ListConf) -> Result<SetUp, AllocError>
        ensures value { IfOk result (λ s. s ≡ set_up_of conf.now) }
    {
        let mut odts = Vec::new(alloc);
        for odt in 0..conf.odts() {
            odts.push(OdtSetUp::of(alloc, conf, odt)?)?;
        }
        Ok(SetUp {
            form: conf.form(),
            mode: mode_set_up::mode_of(conf),
            odts,
        })
    }

    /// Whether a list is set up as that one was, in all but its priority.
    pub fn stands(&self, conf: &ListConf) -> bool
        ensures value { (result ≡ true) ↔ (self.now ≡ set_up_of conf.now) }
    {
        if self.form != conf.form() {
            return false;
        }
        if !mode_set_up::is_same_mode(self.mode, mode_set_up::mode_of(conf)) {
            return false;
        }
        have_odts(&self.odts, conf)
    }
}

/// Whether the ODTs of a list are these.
fn have_odts(odts: &[OdtSetUp], conf: &ListConf) -> bool
    ensures value { (result ≡ true) ↔ (odts.now ≡ conf.now.odts) }
{
    if conf.odts() != odts.len() {
        return false;
    }
    for odt in 0..odts.len() {
        if !odts[odt].stands(conf, odt) {
            return false;
        }
    }
    true
}
