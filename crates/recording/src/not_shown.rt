//! What an A2L file has that isn't shown.
use crate::messages::Messages;
use crate::mode::Mode;
use crate::values::Values;
use a2l::Description;
use value_tables::{Holder, is_held};

/// Tells how many of the A2L file's measurements and instances aren't shown, if there are any and
/// none were chosen by name: those not all of whose bytes are there, and those that were left out
/// of its description. With the table they are named.
pub fn tell_not_shown<H: Holder, M: Messages>(values: Values<'_>, holder: &H, messages: &mut M) {
    if values.only.is_some() {
        return;
    }
    let description = values.description;
    let left_out = description.left_out.len();
    let hidden = missing(description, holder).saturating_add(left_out);
    if hidden == 0 {
        return;
    }
    let all = description.measurements.len().saturating_add(left_out);
    messages.tell_not_shown(hidden, all);
    if let Mode::Summary = values.mode {
        name_all(description, holder, messages);
    }
}

/// Of how many measurements not all bytes are there.
fn missing<H: Holder>(description: &Description, holder: &H) -> usize {
    let mut count = 0usize;
    for measurement in &description.measurements {
        if !is_held(measurement, holder) {
            count = count.saturating_add(1);
        }
    }
    count
}

/// Names what isn't shown.
fn name_all<H: Holder, M: Messages>(description: &Description, holder: &H, messages: &mut M) {
    for measurement in &description.measurements {
        if !is_held(measurement, holder) {
            messages.tell_hidden(&measurement.name);
        }
    }
    for name in &description.left_out {
        messages.tell_hidden(name);
    }
}
