//! The trait of what has the bytes of values.
ghost use Rattle.std.specs.Prelude.{◌≡◌, ℕ, Bool};
ghost use Rattle.measured_values.specs.Encodings.{size_of};
ghost use Rattle.value_tables.specs.Holders.{lists_hold};

use crate::source::source_of;
use daq_reader::ListShape;
use measured_values::DataType;

/// What has the bytes of values in its samples.
pub trait Holder {
    /// Whether it has all of so many bytes at an address.
    ghost held: { Self → ℕ → ℕ → Bool };

    /// Whether it has all bytes of a value at an address.
    fn holds(&self, address: u32, data_type: DataType) -> bool
        ensures { result ≡ Self.held self.now address (size_of data_type) };
}

impl Holder for Vec<ListShape> {
    ghost held = { λ shapes. lists_hold shapes.items };

    /// Whether some list has them.
    fn holds(&self, address: u32, data_type: DataType) -> bool {
        self.iter()
            .any(|shape| source_of(shape, address, data_type).is_some())
    }
}
