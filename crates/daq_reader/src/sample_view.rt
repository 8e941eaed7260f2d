//! What a sample shows: its overload indication, its timestamp, the bytes of its entries.
ghost use Rattle.std.specs.Prelude.{◌≡◌, ◌<◌, [], length, map, slice_index_or, vec_items};
ghost use Rattle.std.specs.Option.{option_copied};
ghost use Rattle.daq_reader.specs.Recorded.{IsRecorded, element};

use crate::list_shape::ListShape;
use std::marker::Model;
use xcp_base::StampSize;

/// A whole sample of a DAQ list, read in place off its packets.
#[derive(Drop)]
pub struct SampleView<'a> {
    pub(crate) shape: &'a ListShape,
    pub(crate) packets: &'a [Vec<u8>],
}

impl<'a> Model for SampleView<'a> {
    ghost use Rattle.std.specs.Prelude.{map, vec_items};
    ghost use Rattle.daq_reader.specs.Reading.{Shown};
    ghost use Rattle.daq_reader.specs.Inner.Cut.{recorded_in};
    ghost use Rattle.daq_reader.specs.Inner.Fitting.{IsWhole};

    ghost Value = { Shown };

    ghost view = { λ a. record {
      plan = a.shape.now;
      sample = recorded_in a.shape.now (map vec_items a.packets.now);
    } };

    ghost invariant = { λ a. IsWhole a.shape.now (map vec_items a.packets.now) };
}

impl<'a> SampleView<'a> {
    /// The shape of the list, of which the sample has all entries.
    pub fn shape(&self) -> &ListShape
        ensures shape { result.now ≡ self.now.plan }
        ensures sample { IsRecorded self.now.plan self.now.sample }
    {
        self.shape
    }

    /// Whether the sample has the overload indication (ASAM MCD-1 XCP, protocol layer,
    /// identification field).
    pub fn overload(&self) -> bool
        ensures { result ≡ self.now.sample.overload }
    {
        let first = packet_at(self.packets, 0);
        first[0] >= 128
    }

    /// The ticks of the timestamp, modulo 256, 65536 or 2^32 (ASAM MCD-1 XCP, protocol layer,
    /// timestamp field); `None` exactly if the list isn't stamped.
    pub fn stamp(&self) -> Option<u32>
        ensures { result ≡ self.now.sample.stamp }
    {
        if !self.shape.stamped() {
            return None;
        }
        let bytes = &packet_at(self.packets, 0)[self.shape.form().id.field_len()..];
        let ticks = match self.shape.form().stamp {
            StampSize::One => bytes[0] as u32,
            StampSize::Two => u16::from_le_bytes([bytes[0], bytes[1]]) as u32,
            StampSize::Four => u32::from_le_bytes([bytes[0], bytes[1], bytes[2], bytes[3]]),
        };
        Some(ticks)
    }

    /// The bytes of entry `e` of ODT `k`; `None` exactly if there is no such entry.
    pub fn entry(&self, k: usize, e: usize) -> Option<&[u8]>
        ensures { option_copied result ≡ element self.now.sample k e }
    {
        let (start, size) = self.shape.place(k, e)?;
        Some(&packet_at(self.packets, k)[start..start + size])
    }
}

/// A packet of a sample.
fn packet_at(packets: &[Vec<u8>], k: usize) -> &[u8]
    requires { k < length packets.now }
    ensures { result.now ≡ slice_index_or (map vec_items packets.now) k [] }
{
    packets[k].as_slice()
}
