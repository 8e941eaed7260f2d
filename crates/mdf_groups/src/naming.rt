//! The names of groups.
ghost use Rattle.std.specs.Prelude.{◌≡◌, IfOk, string_bytes};
ghost use Rattle.mdf_groups.specs.Files.{group_name};

use itoa::Buffer;
use std::alloc::{AllocError, Global};

/// The name of the group of a DAQ list, as `list 0, event 1`: its number and its event channel.
pub fn group_name(alloc: Global, list: u16, channel: u16) -> Result<String, AllocError>
    ensures { IfOk result (λ name. string_bytes name ≡ group_name list channel) }
{
    let mut name = String::from_str(alloc, "list ")?;
    name.push_str(Buffer::new().format(list))?;
    name.push_str(", event ")?;
    name.push_str(Buffer::new().format(channel))?;
    Ok(name)
}
