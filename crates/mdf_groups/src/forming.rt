//! The form of the records of a group: where the value of each column stands in them.
ghost use Rattle.std.specs.Prelude.{◌≡◌, ◌+◌, ◌^◌, ◌<◌, ◌≤◌, All, IfOk, IfSome, IsErrOf, IsNone};
ghost use Rattle.std.specs.Prelude.{IsSome, OnOk, length};
ghost use Rattle.measured_values.specs.Raws.{keeps_sign};
ghost use Rattle.mdf_blocks.specs.ValuePlaces.{FindsRaw, is_float};
ghost use Rattle.mdf_groups.specs.Records.{record_len};
ghost use Rattle.mdf_groups.specs.declared.forming.TheConstants.{MAX_SAMPLE};
ghost use Rattle.mdf_groups.specs.Places.{AddsPlace, ArePlaced, ColumnLiesIn, IsPlain, SomeOutside};
ghost use Rattle.mdf_groups.specs.Places.{is_signed_raw, own_place};
ghost use Rattle.mdf_groups.specs.declared.form_fault.FormFault.TheVariants as fault;

use crate::form_fault::FormFault;
use crate::front::Front;
use crate::own_value::OwnValue;
use crate::placed_column::PlacedColumn;
use crate::record_form::RecordForm;
use mdf_blocks::{ValueFormat, ValuePlace, place_in_record};
use measured_values::{ByteOrder, DataType, Encoding};
use std::alloc::Global;

/// The most bytes of a sample: with front, mark and a value their number still has 32 bits.
pub const MAX_SAMPLE: u32 = 4_294_967_200;

impl RecordForm {
    /// The form of the records of a group with these columns, whose samples have so many bytes. A
    /// value that MDF can't find among these stands behind them: of a mask with holes, or behind a
    /// bit operation.
    pub fn of(
        alloc: Global,
        front: Front,
        sample_bytes: u32,
        columns: &[PlacedColumn<'_>],
    ) -> Result<RecordForm, FormFault>
        ensures front { IfOk result (λ form. form.front ≡ front) }
        ensures size { IfOk result (λ form. form.sample_bytes ≡ sample_bytes) }
        ensures places { IfOk result (λ form. ArePlaced front sample_bytes 0 columns.now form.places
            form.own) }
        ensures count { IfOk result (λ form. length form.places ≡ length columns.now) }
        ensures inside { OnOk result (All (ColumnLiesIn sample_bytes) columns.now) }
        ensures outside { IsErrOf result fault.Outside → SomeOutside sample_bytes columns.now }
        ensures too_long { IsErrOf result fault.TooLong
            → MAX_SAMPLE < record_len front sample_bytes (length columns.now) }
    {
        if sample_bytes > MAX_SAMPLE {
            return Err(FormFault::TooLong);
        }
        let mut own = Vec::new(alloc);
        let mut places = Vec::new(alloc);
        for column in columns {
            add_place(front, sample_bytes, column, &mut own, &mut places)?;
        }
        Ok(RecordForm {
            front,
            sample_bytes,
            own,
            places,
        })
    }
}

/// Adds the place of a column.
fn add_place(
    front: Front,
    sample_bytes: u32,
    column: &PlacedColumn<'_>,
    own: &mut Vec<OwnValue>,
    places: &mut Vec<ValuePlace>,
) -> Result<(), FormFault>
    requires limit { sample_bytes ≤ MAX_SAMPLE }
    requires fits { record_len front sample_bytes (length own.old.items) < 2 ^ 32 }
    ensures fits { OnOk result (record_len front sample_bytes (length own.new.items) < 2 ^ 32) }
    ensures adds { OnOk result (AddsPlace front sample_bytes column.now own.old.items
        places.old.items own.new.items places.new.items) }
    ensures inside { OnOk result (ColumnLiesIn sample_bytes column.now) }
    ensures outside { IsErrOf result fault.Outside → ColumnLiesIn sample_bytes column.now → ⊥ }
    ensures too_long { IsErrOf result fault.TooLong
        → MAX_SAMPLE < record_len front sample_bytes (length own.old.items) }
{
    let encoding = column.column.encoding;
    let at = column.at;
    if at as u64 + encoding.data_type.size() as u64 > sample_bytes as u64 {
        return Err(FormFault::Outside);
    }
    if let Some(place) = found_place(encoding, front.size() + 1 + at) {
        places.push(place)?;
        return Ok(());
    }
    let Some(place) = own_place(front, sample_bytes, encoding, own.len()) else {
        return Err(FormFault::TooLong);
    };
    own.push(OwnValue { encoding, at })?;
    places.push(place)?;
    Ok(())
}

/// Where MDF finds a value whose bytes begin at `at` in a record, if it does. No mask and no
/// operation has an effect on a float.
fn found_place(encoding: Encoding, at: u32) -> Option<ValuePlace>
    requires { at + 8 ≤ 2 ^ 32 }
    ensures found { IfSome result (FindsRaw encoding at) }
    ensures plain { IsPlain encoding → IsSome result }
{
    if !is_float(encoding.data_type) {
        return place_in_record(encoding, at);
    }
    place_in_record(
        Encoding {
            data_type: encoding.data_type,
            order: encoding.order,
            mask: None,
            operation: None,
        },
        at,
    )
}

/// The place of a value behind a sample's bytes, where so many stand before it.
fn own_place(
    front: Front,
    sample_bytes: u32,
    encoding: Encoding,
    before: usize,
) -> Option<ValuePlace>
    requires { record_len front sample_bytes before < 2 ^ 32 }
    ensures place { IfSome result (λ p. p ≡ own_place front sample_bytes encoding before) }
    ensures fits { IfSome result (λ p. record_len front sample_bytes (before + 1) < 2 ^ 32) }
    ensures none { IsNone result → MAX_SAMPLE < record_len front sample_bytes before }
{
    let offset = front.size() + 1 + sample_bytes + 8 * before as u32;
    let _end = offset.checked_add(8)?;
    let format = if is_signed_raw(encoding) {
        ValueFormat::Signed(ByteOrder::MsbLast)
    } else {
        ValueFormat::Unsigned(ByteOrder::MsbLast)
    };
    Some(ValuePlace {
        format,
        byte_offset: offset,
        bit_offset: 0,
        bit_count: 64,
    })
}

/// Whether the raw values of an encoding are signed integers.
fn is_signed_raw(encoding: Encoding) -> bool
    ensures { result ≡ is_signed_raw encoding }
{
    let keeps = keeps_sign(encoding.data_type, encoding.mask);
    match encoding.operation {
        Some(operation) => operation.extends_sign | keeps,
        None => keeps,
    }
}

/// Whether values are signed without an operation that says so.
fn keeps_sign(data_type: DataType, mask: Option<u64>) -> bool
    ensures { result ≡ keeps_sign data_type mask }
{
    if mask.is_some() {
        return false;
    }
    match data_type {
        DataType::SByte | DataType::SWord | DataType::SLong | DataType::AInt64 => true,
        _ => false,
    }
}

fn is_float(data_type: DataType) -> bool
    ensures { result ≡ is_float data_type }
{
    match data_type {
        DataType::Float16 | DataType::Float32 | DataType::Float64 => true,
        _ => false,
    }
}
