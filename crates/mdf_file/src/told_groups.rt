//! The groups that a file tells.
ghost use Rattle.std.specs.Prelude.{◌≡◌, ◌<◌, ◌++◌, ◌∷◌, [], All, IfOk, List, OnOk, map, ℕ};
ghost use Rattle.mdf_file.specs.Ending.{AreOf, HoldRecords};
ghost use Rattle.mdf_file.specs.Standing.{AllHold, IsEmpty, IsHandled, seen};
ghost use Rattle.mdf_file.specs.Writing.{told_groups};

use crate::open_group::OpenGroup;
use crate::streamed_group::StreamedGroup;
use std::alloc::{AllocError, Global};

/// The groups that have records, in their order.
pub fn groups_with_records(
    alloc: Global,
    groups: Vec<OpenGroup>,
) -> Result<Vec<StreamedGroup>, AllocError>
    requires handled { All IsHandled groups.items }
    requires empty { All IsEmpty groups.items }
    ensures told { IfOk result (λ all. AreOf all.items (told_groups (map seen groups.items))) }
    ensures hold { IfOk result (λ all. (bytes : List ℕ) → AllHold groups.items bytes
        → HoldRecords bytes all.items (told_groups (map seen groups.items))) }
{
    let mut out = Vec::new(alloc);
    for group in groups {
        push_if_any(&mut out, group)?;
    }
    Ok(out)
}

/// Appends a group, if it has records.
fn push_if_any(out: &mut Vec<StreamedGroup>, group: OpenGroup) -> Result<(), AllocError>
    ensures none { group.told.len ≡ 0 → OnOk result (out.new.items ≡ out.old.items) }
    ensures some { 0 < group.told.len
        → OnOk result (out.new.items ≡ out.old.items ++ group.told ∷ []) }
{
    if group.told.len == 0 {
        return Ok(());
    }
    out.push(group.told)?;
    Ok(())
}
