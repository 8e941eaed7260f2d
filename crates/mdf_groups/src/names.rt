//! The names of the channels of a group, which differ.
ghost use Rattle.std.specs.Prelude.{◌≡◌, IfOk, OnOk, map, string_bytes};
ghost use Rattle.mdf_groups.specs.Names.{AreNames, IsFresh, IsNameFor, Takes, is_taken};
ghost use Rattle.mdf_groups.specs.Names.{with_number};

use itoa::Buffer;
use std::alloc::{AllocError, Global};
use std::collections::BTreeMap;

/// The names that were given. Each has the number that is tried first if it is wanted again.
type Numbers = BTreeMap<String, u64>;

/// A name for each wanted one, in their order: itself, or if it was given before, with `_` and a
/// number behind it.
pub fn names_of(alloc: Global, wanted: &[&str]) -> Result<Vec<String>, AllocError>
    ensures { IfOk result (λ names. AreNames (map (λ w. w.now) wanted.now)
        (map string_bytes names.items)) }
{
    let mut numbers = BTreeMap::new(alloc);
    let mut names = Vec::new(alloc);
    for name in wanted {
        let given = next_name(alloc, &mut numbers, name)?;
        names.push(given)?;
    }
    Ok(names)
}

/// The name that a wanted one gets.
fn next_name(alloc: Global, numbers: &mut Numbers, wanted: &str) -> Result<String, AllocError>
    ensures name { IfOk result (λ name. IsNameFor (is_taken numbers.old) wanted.now
        (string_bytes name)) }
    ensures takes { IfOk result (λ name. Takes numbers.old numbers.new (string_bytes name)) }
{
    let Some(first) = numbers.get(wanted).copied() else {
        note(alloc, numbers, wanted, 2)?;
        return String::from_str(alloc, wanted);
    };
    let (name, number) = numbered(alloc, numbers, wanted, first)?;
    note(alloc, numbers, wanted, number)?;
    note(alloc, numbers, &name, 2)?;
    Ok(name)
}

/// Notes that a name was given.
fn note(alloc: Global, numbers: &mut Numbers, name: &str, number: u64) -> Result<(), AllocError>
    ensures { OnOk result (Takes numbers.old numbers.new name.now) }
{
    let key = String::from_str(alloc, name)?;
    numbers.insert(key, number)?;
    Ok(())
}

/// The first name that is free of a wanted one with a number, from a number on, and that number
/// plus 1.
fn numbered(
    alloc: Global,
    numbers: &Numbers,
    wanted: &str,
    first: u64,
) -> Result<(String, u64), AllocError>
    ensures { IfOk result (λ it. IsFresh (is_taken numbers.now) wanted.now (string_bytes it.0)) }
{
    for number in first..u64::MAX {
        let name = with_number(alloc, wanted, number)?;
        if !numbers.contains_key(name.as_str()) {
            return Ok((name, number + 1));
        }
    }
    Err(AllocError)
}

/// A name with `_` and a number.
fn with_number(alloc: Global, wanted: &str, number: u64) -> Result<String, AllocError>
    ensures { IfOk result (λ name. string_bytes name ≡ with_number wanted.now number) }
{
    let mut name = String::from_str(alloc, wanted)?;
    name.push('_')?;
    name.push_str(Buffer::new().format(number))?;
    Ok(name)
}
