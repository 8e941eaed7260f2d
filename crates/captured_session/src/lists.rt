//! The DAQ lists of a set-up.
ghost use Rattle.std.specs.Prelude.{◌≡◌, ◌+◌, ◌≤◌, All, IfOk, IfSome, length, Ok, None, Some};
ghost use Rattle.std.specs.Prelude.{false, map, option_map, true};
ghost use Rattle.std.specs.List.{range_with_len};
ghost use Rattle.captured_session.specs.Inner.{entry_behind};
ghost use Rattle.captured_session.specs.Lists.{all_of, entry_at, list_at, list_of, odt_at};
ghost use Rattle.captured_session.specs.Lists.{odts_at, written};

use crate::captured_list::CapturedList;
use crate::element::Element;
use crate::entry::Entry;
use crate::fact::Fact;
use crate::newest::{entries_in, entry_in, first_pid_in, mode_in, odts_in};
use crate::set_up::SetUp;
use crate::stamps::{has_pids, is_plain, is_told};
use std::alloc::{AllocError, Global};

/// A DAQ list of a set-up, if all is known of it and its packets can be read. Lack of memory is the
/// only fault.
pub fn list_in(alloc: Global, set_up: &SetUp, list: u16) -> Result<Option<CapturedList>, AllocError>
    ensures { IfOk result (λ found. found ≡ list_at set_up.now list) }
{
    let facts = set_up.facts();
    let form = set_up.form();
    let Some(mode) = mode_in(facts, list) else {
        return Ok(None);
    };
    let first_pid = first_pid_in(facts, list);
    if !is_told(form, mode) || !is_plain(form, mode) || !has_pids(form.field, first_pid) {
        return Ok(None);
    }
    let Some(odts) = odts_of(alloc, facts, list)? else {
        return Ok(None);
    };
    Ok(Some(CapturedList {
        list,
        form,
        mode,
        first_pid,
        odts,
    }))
}

/// The ODTs of a list, if each of their entries is known.
fn odts_of(
    alloc: Global,
    facts: &[Fact],
    list: u16,
) -> Result<Option<Vec<Vec<Element>>>, AllocError>
    ensures value { IfOk result (λ odts. option_map (λ v. map (λ xs. xs.items) v.items) odts
        ≡ odts_at facts.now list) }
    ensures few { IfOk result (λ odts. IfSome odts
        (λ v. (length v.items ≤ 255) × All (λ xs. length xs.items ≤ 255) v.items)) }
{
    match odts_in(facts, list) {
        Some(count) => all_odts(alloc, facts, list, count),
        None => Ok(None),
    }
}

/// The first so many ODTs of a list, if each of their entries is known.
fn all_odts(
    alloc: Global,
    facts: &[Fact],
    list: u16,
    count: u8,
) -> Result<Option<Vec<Vec<Element>>>, AllocError>
    ensures value { IfOk result (λ odts. option_map (λ v. map (λ xs. xs.items) v.items) odts
        ≡ all_of (map (odt_at facts.now list) (range_with_len 0 count))) }
    ensures few { IfOk result (λ odts. IfSome odts
        (λ v. (length v.items ≤ 255) × All (λ xs. length xs.items ≤ 255) v.items)) }
{
    let mut odts = Vec::new(alloc);
    for odt in 0..count {
        let Some(elements) = odt_in(alloc, facts, list, odt)? else {
            return Ok(None);
        };
        odts.push(elements)?;
    }
    Ok(Some(odts))
}

/// The entries of an ODT, if it has some and each is known and written: where a command is missing
/// in a capture, entries are left over that nobody wrote.
fn odt_in(
    alloc: Global,
    facts: &[Fact],
    list: u16,
    odt: u8,
) -> Result<Option<Vec<Element>>, AllocError>
    ensures value { IfOk result
        (λ elements. option_map (λ v. v.items) elements ≡ odt_at facts.now list odt) }
    ensures few { IfOk result (λ elements. IfSome elements (λ v. length v.items ≤ 255)) }
{
    match entries_in(facts, list, odt) {
        Some(count) if count > 0 => written_in(alloc, facts, list, odt, count),
        _ => Ok(None),
    }
}

/// The first so many entries of an ODT, if each is known and written.
fn written_in(
    alloc: Global,
    facts: &[Fact],
    list: u16,
    odt: u8,
    count: u8,
) -> Result<Option<Vec<Element>>, AllocError>
    ensures value { IfOk result (λ elements. option_map (λ v. v.items) elements
        ≡ written (map (entry_at facts.now list odt) (range_with_len 0 count))) }
    ensures few { IfOk result (λ elements. IfSome elements (λ v. length v.items ≤ 255)) }
{
    let mut elements = Vec::new(alloc);
    for entry in 0..count {
        if !push_known(&mut elements, entry_in(facts, list, odt, entry))? {
            return Ok(None);
        }
    }
    Ok(Some(elements))
}

/// Appends an entry, and tells whether it is known and written.
fn push_known(elements: &mut Vec<Element>, entry: Entry) -> Result<bool, AllocError>
    ensures known { result ≡ Ok true
        → entry_behind (Some elements.old.items) entry ≡ Some elements.new.items }
    ensures few { length elements.new.items ≤ length elements.old.items + 1 }
    ensures open { result ≡ Ok false → entry_behind (Some elements.old.items) entry ≡ None }
{
    match entry {
        Entry::Open | Entry::Unwritten => return Ok(false),
        Entry::Is(element) => elements.push(element)?,
    }
    Ok(true)
}
