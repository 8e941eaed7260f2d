//! How the packets of a slave look until it says so itself, as an A2L file tells it.
ghost use Rattle.std.specs.Prelude.{◌≡◌};
ghost use Rattle.xcpread.specs.Forms.{byte_of, form_by, is_clear, is_number, value_of};

use a2l::{PacketForm, Told};
use captured_session::{Form, field_of, order_of};

/// How packets look, as far as an A2L file tells it (ASAM MCD-1 XCP, IF_DATA). The identification
/// field isn't told if it isn't clear how timestamps look, so that no packet is read wrongly.
pub fn form_by(told: PacketForm) -> Form
    ensures { result ≡ form_by told }
{
    Form {
        has_order: is_number(told.order) && is_number(told.granularity),
        order: order_of(value_of(told.order)),
        granularity: byte_of(told.granularity),
        has_field: is_number(told.field) && is_number(told.overload) && is_clear(told.stamp),
        field: field_of(value_of(told.field)),
        has_overload: value_of(told.overload) == 1,
        has_stamp: is_number(told.stamp),
        stamp: byte_of(told.stamp),
        ticks: value_of(told.ticks),
    }
}

/// Whether a number is told.
fn is_number(told: Told) -> bool
    ensures { result ≡ is_number told }
{
    matches!(told, Told::Number(_))
}

/// Whether nothing that is told is in doubt.
fn is_clear(told: Told) -> bool
    ensures { result ≡ is_clear told }
{
    !matches!(told, Told::Unclear)
}

/// The number that is told; 0 if there is none.
fn value_of(told: Told) -> u16
    ensures { result ≡ value_of told }
{
    told.number().unwrap_or(0)
}

/// The same of a byte.
fn byte_of(told: Told) -> u8
    ensures { result ≡ byte_of told }
{
    let value = value_of(told);
    if value > 255 {
        return 0;
    }
    value as u8
}
