//! A run is read from the text of its file, and shows what the file says.
ghost use Rattle.std.specs.Prelude.{◌≡◌, ◌⊎◌, ℕ, IfErr, IfOk, IsErrOf, None, Some, length, map};
ghost use Rattle.std.specs.Prelude.{option_map, slice_get, vec_items};
ghost use Rattle.toml.specs.Parse.{parse_document};
ghost use Rattle.toml.specs.View.{table_view};
ghost use Rattle.run_file.specs.declared.run_fault.RunFault.TheVariants.{Memory, NotToml};
ghost use Rattle.run_file.specs.Lent.{step_data};
ghost use Rattle.run_file.specs.Limits.{HasLimits};
ghost use Rattle.run_file.specs.RunFile.{HasBadKeyText, HasBadSetup, HasBadStep, IsRunText};

use crate::run_fault::RunFault;
use crate::step::Step;
use crate::step_list::StepList;
use crate::texts::{packets_of, steps_of};
use crate::values::values_of;
use std::alloc::Global;
use std::marker::Model;
use toml::Table;
use xcp_base::{PacketForm, RingKind};

/// A run, as a file tells it: the event channels, the length of the images, the form of the
/// packets, the kind and the capacities of the rings, the command packets of the set-up, the steps,
/// and whether the rings are drained at the end. It comes from a text alone, and so keeps all
/// limits of a run file.
#[derive(Drop)]
pub struct Run {
    channels: u16,
    image_len: usize,
    form: PacketForm,
    ring: RingKind,
    caps: Vec<usize>,
    setup: Vec<Vec<u8>>,
    steps: StepList,
    drain: bool,
}

impl Model for Run {
    ghost use Rattle.std.specs.Prelude.{map, vec_items};
    ghost use Rattle.run_file.specs.Limits.{HasLimits};
    ghost use Rattle.run_file.specs.RunFile.{RunData, run_of};

    ghost Value = { RunData };

    ghost view = { λ r. run_of
        r.channels r.image_len r.form r.ring r.caps.items (map vec_items r.setup.items) r.steps
        r.drain };

    ghost invariant = { λ r. HasLimits (run_of
        r.channels r.image_len r.form r.ring r.caps.items (map vec_items r.setup.items) r.steps
        r.drain) };
}

impl Run {
    /// The run of a text.
    ///
    /// Refused with the first of these faults: `NotToml`, `BadKey`, `BadSetup`, `BadStep`. Lack of
    /// memory, `Memory`, may be answered before any of them.
    pub fn read(alloc: Global, text: &str) -> Result<Run, RunFault>
        ensures ok { IfOk result (IsRunText text.now) }

        ensures not_toml { IsErrOf result RunFault.NotToml → parse_document text.now ≡ None }
        ensures bad_key { IsErrOf result RunFault.BadKey → HasBadKeyText text.now }
        ensures bad_setup { (i : ℕ)
            → IsErrOf result (RunFault.BadSetup i) → HasBadSetup text.now i }
        ensures bad_step { (i : ℕ)
            → IsErrOf result (RunFault.BadStep i) → HasBadStep text.now i }
    {
        let table = table_of(alloc, text)?;
        let values = values_of(alloc, &table)?;
        let setup = packets_of(alloc, values.setup)?;
        let steps = steps_of(alloc, (values.channels - 1) as u8, values.steps)?;
        Ok(Run {
            channels: values.channels,
            image_len: values.image_len,
            form: values.form,
            ring: values.ring,
            caps: values.caps,
            setup,
            steps,
            drain: values.drain,
        })
    }

    /// How many event channels there are.
    pub fn channels(&self) -> u16
        ensures value { result ≡ self.now.channels }
        ensures limits { HasLimits self.now }
    {
        self.channels
    }

    /// The length of an image, in bytes.
    pub fn image_len(&self) -> usize
        ensures value { result ≡ self.now.image_len }
        ensures limits { HasLimits self.now }
    {
        self.image_len
    }

    /// The form of the packets: their identification field, and the size of timestamps.
    pub fn form(&self) -> PacketForm
        ensures value { result ≡ self.now.form }
        ensures limits { HasLimits self.now }
    {
        self.form
    }

    /// The kind of the rings.
    pub fn ring(&self) -> RingKind
        ensures value { result ≡ self.now.ring }
        ensures limits { HasLimits self.now }
    {
        self.ring
    }

    /// The capacity of the ring of each event channel, in its units.
    pub fn caps(&self) -> &[usize]
        ensures value { result.now ≡ self.now.caps }
        ensures limits { HasLimits self.now }
    {
        &self.caps
    }

    /// The command packets of the set-up.
    pub fn setup(&self) -> &[Vec<u8>]
        ensures value { map vec_items result.now ≡ self.now.setup }
        ensures limits { HasLimits self.now }
    {
        &self.setup
    }

    /// How many steps there are.
    pub fn steps(&self) -> usize
        ensures value { result ≡ length self.now.steps }
        ensures limits { HasLimits self.now }
    {
        self.steps.len()
    }

    /// The step at this place; none behind the last one.
    pub fn step(&self, i: usize) -> Option<Step<'_>>
        ensures value { option_map step_data result ≡ slice_get self.now.steps i }
        ensures limits { HasLimits self.now }
    {
        self.steps.get(i)
    }

    /// Whether the rings are drained at the end.
    pub fn drain(&self) -> bool
        ensures value { result ≡ self.now.drain }
    {
        self.drain
    }
}

/// The table of a TOML document.
fn table_of(alloc: Global, text: &str) -> Result<Table, RunFault>
    ensures ok { IfOk result (λ table. parse_document text.now ≡ Some (table_view table)) }
    ensures err { IfErr result (λ e. (e ≡ Memory)
        ⊎ ((e ≡ NotToml) × (parse_document text.now ≡ None))) }
{
    match toml::table_from_str(alloc, text) {
        Ok(table) => Ok(table),
        Err(error) => {
            if error.is_memory() {
                return Err(RunFault::Memory);
            }
            Err(RunFault::NotToml)
        }
    }
}
