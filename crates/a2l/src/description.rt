//! What is read off an A2L file, in plain data: measurements, methods, what is left out.
ghost use Rattle.std.specs.Prelude.{◌≡◌, map};
ghost use Rattle.a2l.specs.Units.{unit_at};
ghost use Rattle.a2l.specs.Resolved.{described_method};

use a2l_entries::{Layout, PacketForm};
use measured_values::{Conversion, Encoding, Tick, ValueLimits};

/// What an A2L file says of what can be measured.
#[derive(Debug, Drop)]
pub struct Description {
    /// The measurements that have an address, in the order of the file.
    pub measurements: Vec<Measurement>,
    /// The conversion methods, in the order of the file (ASAM MCD-2 MC, COMPU_METHOD).
    pub methods: Vec<Method>,
    /// The names of what can't be measured as it is, in the order of the file: the measurements
    /// without an address, with an address extension other than 0, or that are arrays of no or of
    /// more than 65,536 elements, or of an order that isn't known, and the instances (ASAM MCD-2
    /// MC, INSTANCE).
    pub left_out: Vec<String>,
    /// How long a tick of a timestamp is (ASAM MCD-1 XCP, TIMESTAMP_SUPPORTED).
    pub tick: Option<Tick>,
    /// How packets look, as all IF_DATA of XCP and XCPplus tell it.
    pub form: PacketForm,
}

/// A value that can be measured, or an array of such values (ASAM MCD-2 MC, MEASUREMENT).
#[derive(Debug, Drop)]
pub struct Measurement {
    pub name: String,
    /// Its long identifier: empty, if that has more than 1024 bytes.
    pub identifier: String,
    /// How the value stands in its bytes.
    pub encoding: Encoding,
    /// Where its bytes, or those of its first element, begin (ECU_ADDRESS).
    pub address: u32,
    /// The place of its method among the description's, if it has one: NO_COMPU_METHOD has none.
    pub method: Option<usize>,
    /// Its own unit (PHYS_UNIT).
    pub unit: Option<String>,
    /// LowerLimit and UpperLimit, if the first is less than the second.
    pub limits: Option<ValueLimits>,
    /// The dimensions of an array, x first, without those of 1 at their end (MATRIX_DIM,
    /// ARRAY_SIZE). A single value has none.
    pub dims: Vec<u64>,
    /// In which order the elements of an array stand (LAYOUT).
    pub layout: Layout,
}

/// How physical values come of raw ones (ASAM MCD-2 MC, COMPU_METHOD).
#[derive(Debug, Drop)]
pub struct Method {
    pub name: String,
    /// The unit of the physical values.
    pub unit: String,
    pub conversion: Conversion,
}

impl Description {
    ghost use Rattle.a2l.specs.Units.{unit_of};
    ghost use Rattle.a2l.specs.Described.{description_seen};
    ghost use Rattle.a2l.specs.Resolved.{described_measurement};

    /// The unit of a measurement's physical values: its own, else its method's, else none.
    pub fn unit_of<'d>(&'d self, measurement: &'d Measurement) -> &'d str
        ensures { result.now
            ≡ unit_of (description_seen self.now) (described_measurement measurement.now) }
    {
        match &measurement.unit {
            Some(unit) => unit.as_str(),
            None => unit_at(&self.methods, measurement.method),
        }
    }
}

/// The unit of the method at a place.
fn unit_at(methods: &[Method], place: Option<usize>) -> &str
    ensures { result.now ≡ unit_at (map described_method methods.now) place }
{
    match place {
        None => "",
        Some(place) => match methods.get(place) {
            None => "",
            Some(method) => method.unit.as_str(),
        },
    }
}
