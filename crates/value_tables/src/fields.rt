//! Writes a row of CSV field by field.
ghost use Rattle.std.specs.Prelude.{◌<◌, ◌≤◌, ◌-◌, ℕ, List, OnOk, Option, length};
ghost use Rattle.std.specs.Io.KnownBytes.{Appends};
ghost use Rattle.csv.specs.Writing.{row_text, text_written};
ghost use Rattle.sample_tables.specs.Rows.{IsBetweenRows, rfc_4180};
ghost use Rattle.value_tables.specs.Fields.{HasFieldMore, HasFields};

use csv::{Error, Writer};
use std::io::Write;

/// One field more of a row.
pub fn put_field<W: Write + Drop>(rows: &mut Writer<W>, field: &[u8]) -> Result<(), Error>
    ensures { OnOk result (HasFieldMore W.contents rows.old rows.new field.now) }
{
    rows.write_field(field)
}

/// Ends a row of two fields or more.
pub fn end_row<W: Write + Drop>(rows: &mut Writer<W>) -> Result<(), Error>
    ensures text { (before : Option (List ℕ)) (fields : List (List ℕ))
        → HasFields W.contents before fields rows.old → 2 ≤ length fields
        → OnOk result (Appends before (text_written W.contents rows.new)
        (row_text rfc_4180 fields)) }
    ensures between { (before : Option (List ℕ)) (fields : List (List ℕ))
        → HasFields W.contents before fields rows.old → OnOk result (IsBetweenRows rows.new) }
{
    rows.end_record()
}
