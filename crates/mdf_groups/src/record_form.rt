//! What the records of a group consist of, and the record of a sample.
ghost use Rattle.std.specs.Prelude.{◌≡◌, ◌++◌, All, OnErr, OnOk, length, take};
ghost use Rattle.std.specs.List.{flat_map};
ghost use Rattle.mdf_groups.specs.Records.{LiesIn, is_time_for, own_bytes, record_of, time_bytes};

use crate::front::Front;
use crate::own_value::OwnValue;
use crate::record_fault::RecordFault;
use crate::record_time::RecordTime;
use mdf_blocks::ValuePlace;
use std::alloc::AllocError;
use std::marker::Model;
use std::num::f64_to_bits_with_nan;

/// What the records of a group consist of: the front, a mark of one byte, the bytes of a sample,
/// and the values behind them, of 8 bytes each.
#[derive(Debug, Drop)]
pub struct RecordForm {
    pub(crate) front: Front,
    pub(crate) sample_bytes: u32,
    pub(crate) own: Vec<OwnValue>,
    pub(crate) places: Vec<ValuePlace>,
}

impl Model for RecordForm {
    ghost use Rattle.std.specs.Prelude.{◌^◌, ◌<◌, All, length};
    ghost use Rattle.mdf_groups.specs.Records.{FormOf, LiesIn, record_len};

    ghost Value = { FormOf };

    ghost view = { λ a. record {
      front = a.front;
      sample_bytes = a.sample_bytes;
      own = a.own.items;
      places = a.places.items;
    } };

    ghost invariant = { λ a. (record_len a.front a.sample_bytes (length a.own.items) < 2 ^ 32)
        × All (LiesIn a.sample_bytes) a.own.items };
}

impl RecordForm {
    ghost use Rattle.std.specs.Prelude.{◌≡◌, ◌≢◌, ◌++◌, IsErrOf, OnErr, OnOk, false, length};
    ghost use Rattle.mdf_groups.specs.Records.{IsTimeFor, is_time_for, record_len, record_of};
    ghost use Rattle.mdf_groups.specs.declared.record_fault.RecordFault.TheVariants as fault;

    /// What a record begins with.
    pub fn front(&self) -> Front
        ensures { result ≡ self.now.front }
    {
        self.front
    }

    /// The number of bytes of a sample.
    pub fn sample_bytes(&self) -> u32
        ensures { result ≡ self.now.sample_bytes }
    {
        self.sample_bytes
    }

    /// The number of bytes of a record.
    pub fn record_bytes(&self) -> u32
        ensures { result ≡ record_len self.now.front self.now.sample_bytes (length self.now.own) }
    {
        self.front.size() + 1 + self.sample_bytes + 8 * self.own.len() as u32
    }

    /// Where MDF finds the value of each column in a record.
    pub fn places(&self) -> &[ValuePlace]
        ensures { result.now ≡ self.now.places }
    {
        &self.places
    }

    /// Appends the record of a sample. `mark` is 0, 1 for an overload, 2 for a gap, 3 for both. On
    /// an error nothing is appended.
    pub fn write_record(
        &self,
        out: &mut Vec<u8>,
        time: RecordTime,
        mark: u8,
        sample: &[u8],
    ) -> Result<(), RecordFault>
        ensures ok { OnOk result (out.new.items
            ≡ out.old.items ++ record_of self.now.own time mark sample.now) }
        ensures right_time { OnOk result (IsTimeFor self.now.front time) }
        ensures right_length { OnOk result (length sample.now ≡ self.now.sample_bytes) }

        ensures wrong_time { IsErrOf result fault.WrongTime
            → is_time_for self.now.front time ≡ false }
        ensures wrong_length { IsErrOf result fault.WrongLength
            → length sample.now ≢ self.now.sample_bytes }
        ensures err { OnErr result (out.new.items ≡ out.old.items) }
    {
        if !is_time_for(self.front, time) {
            return Err(RecordFault::WrongTime);
        }
        if sample.len() != self.sample_bytes as usize {
            return Err(RecordFault::WrongLength);
        }
        let start = out.len();
        if push_parts(out, time, mark, sample, &self.own).is_err() {
            out.truncate(start);
            return Err(RecordFault::Memory);
        }
        Ok(())
    }
}

/// Whether records that begin so have times of this kind.
fn is_time_for(front: Front, time: RecordTime) -> bool
    ensures { result ≡ is_time_for front time }
{
    match front {
        Front::Seconds => matches!(time, RecordTime::Seconds(_)),
        Front::Ticks => matches!(time, RecordTime::Ticks(_)),
        Front::Nothing => matches!(time, RecordTime::Unknown),
    }
}

/// Appends a record; if memory is out, a part of it may have been appended.
fn push_parts(
    out: &mut Vec<u8>,
    time: RecordTime,
    mark: u8,
    sample: &[u8],
    own: &[OwnValue],
) -> Result<(), AllocError>
    requires { All (LiesIn (length sample.now)) own.now }
    ensures ok { OnOk result (out.new.items
        ≡ out.old.items ++ record_of own.now time mark sample.now) }
    ensures err { OnErr result (take (length out.old.items) out.new.items ≡ out.old.items) }
{
    push_time(out, time)?;
    out.push(mark)?;
    out.extend_from_slice(sample)?;
    push_own(out, own, sample)
}

/// Appends a time; if memory is out, nothing is appended.
fn push_time(out: &mut Vec<u8>, time: RecordTime) -> Result<(), AllocError>
    ensures ok { OnOk result (out.new.items ≡ out.old.items ++ time_bytes time) }
    ensures err { OnErr result (out.new.items ≡ out.old.items) }
{
    match time {
        RecordTime::Seconds(seconds) => {
            out.extend_from_slice(&f64_to_bits_with_nan(seconds).to_le_bytes())
        }
        RecordTime::Ticks(ticks) => out.extend_from_slice(&ticks.to_le_bytes()),
        RecordTime::Unknown => Ok(()),
    }
}

/// Appends the values behind a sample's bytes; if memory is out, some may have been appended.
fn push_own(out: &mut Vec<u8>, own: &[OwnValue], sample: &[u8]) -> Result<(), AllocError>
    requires { All (LiesIn (length sample.now)) own.now }
    ensures ok { OnOk result (out.new.items
        ≡ out.old.items ++ flat_map (own_bytes sample.now) own.now) }
    ensures err { OnErr result (take (length out.old.items) out.new.items ≡ out.old.items) }
{
    for value in own {
        let number = value.number_in(sample);
        out.extend_from_slice(&number.to_le_bytes())?;
    }
    Ok(())
}
