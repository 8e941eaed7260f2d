//! What has been read of an A2L file so far, MODULE by MODULE.
ghost use Rattle.std.specs.Prelude.{◌≡◌, ◌++◌, OnOk, map, option_map, string_bytes};
ghost use Rattle.a2l_entries.specs.Gives.{Gives};
ghost use Rattle.a2l_entries.specs.Said.{tokens_of};
ghost use Rattle.a2l.specs.Drafts.{draft_seen};
ghost use Rattle.a2l.specs.Described.{after_part, nothing, description_seen, with_module};
ghost use Rattle.a2l.specs.Described.{daq_tick, first_tick, with_daq, with_form, with_instance};
ghost use Rattle.a2l.specs.Described.{with_measurement, with_tick};
ghost use Rattle.a2l.specs.Resolved.{name_if_left};
ghost use Rattle.a2l_entries.specs.MeasurementSaid.{measurement_seen};
ghost use Rattle.a2l.specs.ModuleSaid.{module_seen, no_parts};

use crate::description::Description;
use crate::module_parts::ModuleParts;
use crate::resolving::{add_measurements, add_methods, address_of};
use a2l_entries::{
    EntryFault, Left, MeasurementBlock, PacketForm, behind_keyword, form_with, instance_of,
    measurement_of, stamps_in, tick_of,
};
use a2l_text::Part;
use measured_values::{ByteOrder, Tick};
use std::alloc::{AllocError, Global};
use std::mem;

/// How many bytes the copies of texts that several methods share may take: 256 MiB.
const MAX_COPIES: usize = 268_435_456;

/// What has been read of a text.
#[derive(Drop)]
pub struct Draft {
    /// What the blocks of the MODULE say that isn't ended.
    pub parts: ModuleParts,
    /// What the MODULEs before say.
    pub description: Description,
    /// How many bytes copies of texts may still take.
    room: usize,
}

impl Draft {
    /// Before the first part.
    pub fn new(alloc: Global) -> Draft
        ensures { draft_seen result ≡ (no_parts, nothing) }
    {
        let description = Description {
            measurements: Vec::new(alloc),
            methods: Vec::new(alloc),
            left_out: Vec::new(alloc),
            tick: None,
            form: PacketForm::nothing(),
        };
        Draft {
            parts: ModuleParts::new(alloc),
            description,
            room: MAX_COPIES,
        }
    }

    /// Adds what a part says.
    pub fn take(&mut self, alloc: Global, part: Part, words: Left<'_, '_>) -> Result<(), EntryFault>
        ensures { Gives (λ _. draft_seen self.new) result
            (after_part part (tokens_of words.entry) (draft_seen self.old)) }
    {
        match part {
            Part::Module => {
                let module = mem::replace(&mut self.parts, ModuleParts::new(alloc));
                add_module(alloc, &mut self.description, &module, &mut self.room)
            }
            Part::Timestamp => note_tick(&mut self.description, words),
            Part::Daq => note_daq(&mut self.description, words),
            Part::Protocol | Part::PlusDaq => {
                note_form(&mut self.description, words);
                Ok(())
            }
            Part::Instance => note_instance(alloc, &mut self.description, words),
            Part::Measurement => self.take_measurement(alloc, words),
            _ => self.parts.take(alloc, part, words),
        }
    }

    /// Adds a measurement, and its name to those that are left out if it isn't kept.
    #[tactic(auto, unfolding(crate::specs::Described::with_measurement))]
    fn take_measurement(&mut self, alloc: Global, words: Left<'_, '_>) -> Result<(), EntryFault>
        ensures { Gives (λ _. draft_seen self.new) result
            (with_measurement (tokens_of words.entry) (draft_seen self.old)) }
    {
        let measurement = measurement_of(alloc, words)?;
        note_left_out(&mut self.description.left_out, &measurement)?;
        self.parts.measurements.push(measurement)?;
        Ok(())
    }
}

/// Adds the name of a measurement, if it isn't kept.
fn note_left_out(names: &mut Vec<String>, measurement: &MeasurementBlock) -> Result<(), AllocError>
    ensures { OnOk result (map (λ s. string_bytes s) names.new.items
        ≡ map (λ s. string_bytes s) names.old.items
        ++ name_if_left (measurement_seen measurement.now)) }
{
    if address_of(measurement).is_some() {
        return Ok(());
    }
    let name = measurement.name.clone()?;
    names.push(name)?;
    Ok(())
}

/// Adds the name of an instance.
#[tactic(auto, unfolding(crate::specs::Described::with_instance))]
fn note_instance(
    alloc: Global,
    description: &mut Description,
    words: Left<'_, '_>,
) -> Result<(), EntryFault>
    ensures { Gives (λ _. description_seen description.new) result
        (with_instance (tokens_of words.entry) (description_seen description.old)) }
{
    let name = instance_of(alloc, words)?;
    description.left_out.push(name)?;
    Ok(())
}

/// Adds what the blocks of a MODULE say.
#[tactic(auto, unfolding(crate::specs::Described::with_module))]
fn add_module(
    alloc: Global,
    description: &mut Description,
    module: &ModuleParts,
    room: &mut usize,
) -> Result<(), EntryFault>
    ensures { Gives (λ _. description_seen description.new) result
        (with_module (module_seen module.now) (description_seen description.old)) }
{
    let order = module.order.unwrap_or(ByteOrder::MsbLast);
    let before = description.methods.len();
    add_measurements(
        alloc,
        &mut description.measurements,
        &module.measurements,
        &module.methods,
        order,
        before,
    )?;
    add_methods(
        alloc,
        &mut description.methods,
        &module.methods,
        &module.tables,
        room,
    )
}

/// Keeps what a TIMESTAMP_SUPPORTED tells, and the first tick.
#[tactic(auto, unfolding(crate::specs::Described::with_tick))]
fn note_tick(description: &mut Description, words: Left<'_, '_>) -> Result<(), EntryFault>
    ensures { Gives (λ _. description_seen description.new) result
        (with_tick (tokens_of words.entry) (description_seen description.old)) }
{
    let tick = first_tick(description.tick, words)?;
    description.tick = Some(tick);
    description.form = description.form.and(stamps_in(words));
    Ok(())
}

/// Keeps what a DAQ tells, and the first tick.
#[tactic(auto, unfolding(crate::specs::Described::with_daq))]
fn note_daq(description: &mut Description, words: Left<'_, '_>) -> Result<(), EntryFault>
    ensures { Gives (λ _. description_seen description.new) result
        (with_daq (tokens_of words.entry) (description_seen description.old)) }
{
    let tick = daq_tick(
        description.tick,
        behind_keyword(words, "TIMESTAMP_SUPPORTED"),
    )?;
    description.tick = tick;
    description.form = form_with(description.form, words);
    Ok(())
}

/// Keeps what a PROTOCOL_LAYER tells, or a DAQ of XCPplus.
fn note_form(description: &mut Description, words: Left<'_, '_>)
    ensures { description_seen description.new
        ≡ with_form (tokens_of words.entry) (description_seen description.old) }
{
    description.form = form_with(description.form, words);
}

/// The tick, if there is one, or that of a DAQ, by the words behind TIMESTAMP_SUPPORTED in it.
fn daq_tick(known: Option<Tick>, words: Option<Left<'_, '_>>) -> Result<Option<Tick>, EntryFault>
    ensures { Gives (λ x. x) result (daq_tick known (option_map (λ x. tokens_of x) words.entry)) }
{
    match words {
        None => Ok(known),
        Some(words) => Ok(Some(first_tick(known, words)?)),
    }
}

/// The tick, if there is one, or that of the words of a TIMESTAMP_SUPPORTED.
fn first_tick(known: Option<Tick>, words: Left<'_, '_>) -> Result<Tick, EntryFault>
    ensures { Gives (λ x. x) result (first_tick known (tokens_of words.entry)) }
{
    match known {
        Some(tick) => Ok(tick),
        None => tick_of(words),
    }
}
