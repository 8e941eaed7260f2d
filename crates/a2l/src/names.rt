//! The places of names in a list; of two names that are the same the first counts.
ghost use Rattle.std.specs.Prelude.{◌≡◌, OnOk};
ghost use Rattle.std.specs.BTreeMap.{get_by_text};
ghost use Rattle.a2l.specs.Names.{NotesName};

use std::alloc::{AllocError, Global};
use std::collections::BTreeMap;

/// The place of each name in a list: that of the first of them, where two are one.
pub type Places = BTreeMap<String, usize>;

/// Notes the place of a name, unless the name has one already.
pub fn note(alloc: Global, places: &mut Places, name: &str, place: usize) -> Result<(), AllocError>
    ensures { OnOk result (NotesName places.old places.new name.now place) }
{
    if places.contains_key(name) {
        return Ok(());
    }
    let key = String::from_str(alloc, name)?;
    places.insert(key, place)?;
    Ok(())
}

/// The place of a name, if it has one.
pub fn place_of(places: &Places, name: &str) -> Option<usize>
    ensures { result ≡ get_by_text places.now name.now }
{
    places.get(name).copied()
}
