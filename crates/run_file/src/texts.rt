//! Reads the command packets and the steps of a run file from their texts.
ghost use Rattle.std.specs.Prelude.{◌≡◌, ◌+◌, ◌⊎◌, ℕ, IfErr, IfOk, IsErrOf, OnOk, map};
ghost use Rattle.std.specs.Prelude.{option_map, vec_items};
ghost use Rattle.run_file.specs.declared.run_fault.RunFault.TheVariants.{BadSetup, BadStep, Memory};
ghost use Rattle.run_file.specs.Inner.{Gains};
ghost use Rattle.run_file.specs.Reading.{AreTextsOf, HasNone, IsFirstBad};
ghost use Rattle.run_file.specs.RunFile.{IsPacketText};
ghost use Rattle.run_file.specs.StepOf.{bytes_of, packet_of};
ghost use Rattle.run_file.specs.Steps.{IsStepText};
ghost use Rattle.run_file.specs.Inner.{text_in};

use crate::limits::MAX_COMMAND_LEN;
use crate::run_fault::RunFault;
use crate::step_fault::StepFault;
use crate::step_list::StepList;
use crate::wording::wording_of;
use hex::FromHexError;
use std::alloc::{AllocError, Global};
use toml::Value;

/// The command packets of some texts.
pub fn packets_of(alloc: Global, values: &[Value]) -> Result<Vec<Vec<u8>>, RunFault>
    ensures ok { IfOk result (λ packets.
        AreTextsOf IsPacketText (map text_in values.now) (map vec_items packets.items)) }
    ensures err { IfErr result (λ e. (e ≡ Memory)
        ⊎ ((i : ℕ) × (e ≡ BadSetup i) × IsFirstBad IsPacketText (map text_in values.now) i)) }
{
    let Ok(mut packets) = Vec::with_capacity(alloc, values.len()) else {
        return Err(RunFault::Memory);
    };
    for value in values {
        let Ok(read) = packet_of(alloc, text_in(value)) else {
            return Err(RunFault::Memory);
        };
        let Some(packet) = read else {
            return Err(RunFault::BadSetup(packets.len()));
        };
        let Ok(()) = packets.push(packet) else {
            return Err(RunFault::Memory);
        };
    }
    Ok(packets)
}

/// The steps of some texts, for the event channels from 0 to `last`.
pub fn steps_of(alloc: Global, last: u8, values: &[Value]) -> Result<StepList, RunFault>
    ensures ok { IfOk result (λ steps.
        AreTextsOf (IsStepText (last + 1)) (map text_in values.now) steps) }
    ensures err { IfErr result (λ e. (e ≡ Memory)
        ⊎ ((i : ℕ) × (e ≡ BadStep i)
        × IsFirstBad (IsStepText (last + 1)) (map text_in values.now) i)) }
{
    let Ok(mut steps) = StepList::with_room(alloc, values.len()) else {
        return Err(RunFault::Memory);
    };
    for value in values {
        match read_step(&mut steps, last, text_in(value)) {
            Ok(()) => {}
            Err(StepFault::NoStep) => return Err(RunFault::BadStep(steps.len())),
            Err(StepFault::Memory) => return Err(RunFault::Memory),
        }
    }
    Ok(steps)
}

/// The step of a text behind the others, for the event channels from 0 to `last`.
fn read_step(steps: &mut StepList, last: u8, text: &str) -> Result<(), StepFault>
    ensures ok { OnOk result (Gains (IsStepText (last + 1) text.now) steps.old steps.new) }
    ensures no_step { IsErrOf result StepFault.NoStep → HasNone (IsStepText (last + 1) text.now) }
    ensures stays { IsErrOf result StepFault.NoStep → steps.new ≡ steps.old }
{
    let Some(step) = wording_of(last, text) else {
        return Err(StepFault::NoStep);
    };
    steps.push(step)
}

/// The command packet of a text; none if it is none.
pub fn packet_of(alloc: Global, text: &str) -> Result<Option<Vec<u8>>, AllocError>
    ensures { IfOk result (λ packet. option_map vec_items packet ≡ packet_of text.now) }
{
    if text.len() > 2 * MAX_COMMAND_LEN {
        return Ok(None);
    }
    bytes_of(alloc, text)
}

/// The bytes of a text in hexadecimal; none if it isn't hexadecimal of an even number of digits.
pub fn bytes_of(alloc: Global, text: &str) -> Result<Option<Vec<u8>>, AllocError>
    ensures { IfOk result (λ bytes. option_map vec_items bytes ≡ bytes_of text.now) }
{
    match hex::decode(alloc, text) {
        Ok(bytes) => Ok(Some(bytes)),
        Err(FromHexError::OutOfMemory) => Err(AllocError),
        Err(_) => Ok(None),
    }
}

/// The text in a value.
pub fn text_in(value: &Value) -> &str
    ensures { result.now ≡ text_in value.now }
{
    match value.as_str() {
        Some(text) => text,
        None => "",
    }
}
