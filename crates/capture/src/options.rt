//! The options of a block of pcapng.
ghost use Rattle.std.specs.Prelude.{◌≡◌, ◌+◌, ◌*◌, ◌/◌, ◌≤◌, ℕ, List, length, drop, IfOk, IfSome};
ghost use Rattle.std.specs.Prelude.{IfErr, IsNone, IsErr, option_map};
ghost use Rattle.capture.specs.Options.{AreOptions, AtEnd, IsOption, filled, first_value};
ghost use Rattle.capture.specs.Options.{value_of};

use crate::capture_fault::CaptureFault;
use crate::numbers::number_at;
use measured_values::ByteOrder;

/// An option, and how many bytes it takes up.
#[derive(Clone, Copy)]
struct Found<'b> {
    code: u64,
    value: &'b [u8],
    len: usize,
}

/// The value of the first option of a code, if there is one. Refused if the bytes aren't options.
pub fn option_value<'b>(
    order: ByteOrder,
    bytes: &'b [u8],
    code: u64,
) -> Result<Option<&'b [u8]>, CaptureFault>
    ensures ok { IfOk result (λ value. (options : List (ℕ × List ℕ))
        × AreOptions order bytes.now options
        × (option_map (λ v. v.now) value ≡ value_of code options)) }
    ensures err { IfErr result (λ fault. fault ≡ CaptureFault.Bad) }
    ensures none { IsErr result → (options : List (ℕ × List ℕ))
        → AreOptions order bytes.now options → ⊥ }
{
    let mut at = 0;
    let mut found = None;
    while at < bytes.len() {
        let Some(option) = option_in(order, &bytes[at..])? else {
            return Ok(found);
        };
        at += option.len;
        found = first_of(found, option, code);
    }
    Ok(found)
}

/// What was found before, or else the value of an option if it has this code.
fn first_of<'b>(before: Option<&'b [u8]>, option: Found<'b>, code: u64) -> Option<&'b [u8]>
    ensures { option_map (λ v. v.now) result
        ≡ first_value (option_map (λ v. v.now) before.entry)
        option.entry.code option.entry.value.now code }
{
    if before.is_some() {
        return before;
    }
    if option.code == code {
        return Some(option.value);
    }
    None
}

/// The option in front of these bytes; `None` behind the last one. Refused if there is none.
fn option_in<'b>(order: ByteOrder, bytes: &'b [u8]) -> Result<Option<Found<'b>>, CaptureFault>
    ensures some { IfOk result (λ it. IfSome it (λ found.
        IsOption order bytes.now (found.code, found.value.now)
        × (found.len ≡ 4 + filled (length found.value.now)) × (found.len ≤ length bytes.now))) }
    ensures end { IfOk result (λ it. IsNone it → AtEnd order bytes.now) }
    ensures err { IfErr result (λ fault. fault ≡ CaptureFault.Bad) }
    ensures none { IsErr result → (options : List (ℕ × List ℕ))
        → AreOptions order bytes.now options → ⊥ }
{
    if bytes.is_empty() {
        return Ok(None);
    }
    if bytes.len() < 4 {
        return Err(CaptureFault::Bad);
    }
    let code = number_at(order, bytes, 0, 2);
    if code == 0 {
        return Ok(None);
    }
    let len = number_at(order, bytes, 2, 2) as usize;
    let whole = 4 + (len + 3) / 4 * 4;
    if bytes.len() < whole {
        return Err(CaptureFault::Bad);
    }
    Ok(Some(Found {
        code,
        value: &bytes[4..4 + len],
        len: whole,
    }))
}
