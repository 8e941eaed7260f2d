//! The steps of a run are kept, with the images of all triggers in one vector.
ghost use Rattle.std.specs.Prelude.{◌≡◌, ◌+◌, ◌<◌, ◌++◌, ◌∷◌, [], IfErr, IfOk, IsErrOf, None};
ghost use Rattle.std.specs.Prelude.{OnErr, OnOk};
ghost use Rattle.std.specs.Prelude.{◌≤◌, Some, drop, length, option_map, slice_get, slice_range};
ghost use Rattle.run_file.specs.declared.step_fault.StepFault.TheVariants.{Memory};
ghost use Rattle.run_file.specs.Inner.{BeginsWith, GainsAction, GainsImage, next_from};
ghost use Rattle.run_file.specs.Lent.{step_data};
ghost use Rattle.run_file.specs.Inner.{step_with, Gains};
ghost use Rattle.run_file.specs.StepOf.{image_of, with_image};
ghost use Rattle.run_file.specs.Steps.{trigger};
ghost use Rattle.run_file.specs.Inner.{wording_data};

use crate::kept::{Action, Kept};
use crate::step::Step;
use crate::step_fault::StepFault;
use crate::wording::Wording;
use std::alloc::{AllocError, Global};
use std::marker::Model;

/// Steps, in order. No step has memory of its own: the images of all triggers stand one behind
/// another.
#[derive(Drop)]
pub struct StepList {
    kept: Vec<Kept>,
    images: Vec<u8>,
}

impl Model for StepList {
    ghost use Rattle.std.specs.Prelude.{List, length};
    ghost use Rattle.run_file.specs.Inner.{AreInOrder, kept_data};
    ghost use Rattle.run_file.specs.Steps.{StepData};

    ghost Value = { List StepData };

    ghost view = { λ a. kept_data a.images.items a.kept.items };

    ghost invariant = { λ a. AreInOrder (length a.images.items) a.kept.items };
}

impl StepList {
    /// No steps, with room for so many.
    pub fn with_room(alloc: Global, count: usize) -> Result<StepList, AllocError>
        ensures { IfOk result (λ steps. steps ≡ []) }
    {
        let kept = Vec::with_capacity(alloc, count)?;
        Ok(StepList {
            kept,
            images: Vec::new(alloc),
        })
    }

    /// How many there are.
    pub fn len(&self) -> usize
        ensures { result ≡ length self.now }
    {
        self.kept.len()
    }

    /// The step at this place.
    pub fn get(&self, i: usize) -> Option<Step<'_>>
        ensures value { option_map step_data result ≡ slice_get self.now i }
    {
        let Some(kept) = self.kept.get(i) else {
            return None;
        };
        let end = end_of(&self.kept, i, self.images.len());
        Some(lent(&self.images, *kept, end))
    }

    /// One step more, with the image that its word says.
    pub fn push(&mut self, step: Wording<'_>) -> Result<(), StepFault>
        ensures ok { OnOk result
            (Gains (λ s. with_image (wording_data step.entry) ≡ Some s) self.old self.new) }
        ensures no_step { IsErrOf result StepFault.NoStep
            → with_image (wording_data step.entry) ≡ None }
        ensures stays { IsErrOf result StepFault.NoStep → self.new ≡ self.old }
    {
        let from = self.images.len();
        let action = push_action(&mut self.images, step)?;
        keep(&mut self.kept, Kept { action, from })
    }
}

/// Where the image of step `i` ends, where so many bytes of images are there.
fn end_of(kept: &[Kept], i: usize, len: usize) -> usize
    requires there { i < length kept.now }
    ensures { result ≡ next_from len (drop (i + 1) kept.now) }
{
    match kept.get(i + 1) {
        Some(next) => next.from,
        None => len,
    }
}

/// A step whose image ends here among all images, as it is lent.
fn lent(images: &[u8], kept: Kept, end: usize) -> Step<'_>
    requires up { kept.from ≤ end }
    requires low { end ≤ length images.now }
    ensures value { step_data result
        ≡ step_with kept.action (slice_range images.now kept.from end) }
{
    let image = &images[kept.from..end];
    match kept.action {
        Action::Trigger { channel, stamp } => Step::Trigger {
            channel,
            stamp,
            image,
        },
        Action::Start { channel, list } => Step::Start { channel, list },
        Action::Stop { channel, list } => Step::Stop { channel, list },
        Action::Pump => Step::Pump,
    }
}

/// Keeps one step more.
fn keep(kept: &mut Vec<Kept>, step: Kept) -> Result<(), StepFault>
    ensures ok { OnOk result (kept.new.items ≡ kept.old.items ++ step ∷ []) }
    ensures memory { IfErr result (λ e. e ≡ Memory) }
    ensures err { OnErr result (kept.new.items ≡ kept.old.items) }
{
    let Ok(()) = kept.push(step) else {
        return Err(StepFault::Memory);
    };
    Ok(())
}

/// The action of a step in words, with its image behind the other images.
fn push_action(images: &mut Vec<u8>, step: Wording<'_>) -> Result<Action, StepFault>
    ensures ok { IfOk result (GainsAction (with_image (wording_data step.entry))
        images.old.items images.new.items) }
    ensures no_step { IsErrOf result StepFault.NoStep
        → with_image (wording_data step.entry) ≡ None }
    ensures stays { IsErrOf result StepFault.NoStep → images.new.items ≡ images.old.items }
    ensures front { BeginsWith images.old.items images.new.items }
{
    match step {
        Wording::Trigger {
            channel,
            stamp,
            digits,
        } => push_trigger(images, channel, stamp, digits),
        Wording::Start { channel, list } => Ok(Action::Start { channel, list }),
        Wording::Stop { channel, list } => Ok(Action::Stop { channel, list }),
        Wording::Pump => Ok(Action::Pump),
    }
}

/// The action of a trigger, with its image behind the other images.
fn push_trigger(
    images: &mut Vec<u8>,
    channel: u8,
    stamp: u32,
    digits: &str,
) -> Result<Action, StepFault>
    ensures ok { IfOk result (GainsAction (with_image (trigger channel stamp digits.now))
        images.old.items images.new.items) }
    ensures no_step { IsErrOf result StepFault.NoStep
        → with_image (trigger channel stamp digits.now) ≡ None }
    ensures stays { IsErrOf result StepFault.NoStep → images.new.items ≡ images.old.items }
    ensures front { BeginsWith images.old.items images.new.items }
{
    push_image(images, digits)?;
    Ok(Action::Trigger { channel, stamp })
}

/// The image of a word in hexadecimal behind the other images.
fn push_image(images: &mut Vec<u8>, digits: &str) -> Result<(), StepFault>
    ensures ok { OnOk result (GainsImage (image_of digits.now) images.old.items images.new.items) }
    ensures no_step { IsErrOf result StepFault.NoStep → image_of digits.now ≡ None }
    ensures stays { IsErrOf result StepFault.NoStep → images.new.items ≡ images.old.items }
    ensures front { BeginsWith images.old.items images.new.items }
{
    if digits.is_empty() {
        return Err(StepFault::NoStep);
    }
    // room for the bytes, which are half as many as the digits; then they are written there
    let from = images.len();
    let Ok(()) = images.extend_from_slice(&digits.as_bytes()[..digits.len() / 2]) else {
        return Err(StepFault::Memory);
    };
    let Ok(()) = hex::decode_to_slice(digits, &mut images[from..]) else {
        images.truncate(from);
        return Err(StepFault::NoStep);
    };
    Ok(())
}
