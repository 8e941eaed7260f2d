//! The hot copy: from memory to the packets of a sample. It takes no memory.
ghost use Rattle.std.specs.Prelude.{◌≡◌, ◌<◌, ◌≤◌, ◌++◌, [], ◌∷◌, length};
ghost use Rattle.segments.specs.Image.{image_len};
ghost use Rattle.std.specs.Prelude.{slice_get, option_map, take};
ghost use Rattle.xcp_base.specs.Forms.{field_len};
ghost use Rattle.xcp_base.specs.Packets.{stamp_len};
ghost use Rattle.copy_plan.specs.Config.{IsByValue, IsPlan, odt};
ghost use Rattle.copy_plan.specs.Packet.{packet, packets};
ghost use Rattle.copy_plan.specs.Pids.{field, pid};
ghost use Rattle.copy_plan.specs.Copies.{copies_needed};
ghost use Rattle.copy_plan.specs.Inner.Joined.{joined_spans};
ghost use Rattle.copy_plan.specs.Inner.Stretched.{ArePlaced};
ghost use Rattle.copy_plan.specs.Memory.{FitsMemory, image_in};

use crate::plan::CopyPlan;
use crate::spans::Spans;
use xcp_base::limits::{MAX_ODTS, MAX_STAMP};
use xcp_base::{MemoryView, Packets};

impl CopyPlan {
    /// The packets of a sample, one for each ODT in their order, all from one image and one
    /// timestamp, which only a stamped list uses; `overload` sets the overload indication. They
    /// find room in a value of fixed size.
    pub fn fill(&self, image: &[u8], stamp: u32, overload: bool) -> Packets
        requires image { length image.now ≡ image_len self.now.segments }
        requires by_value { IsByValue self.now }
        ensures { result ≡ packets self.now image.now stamp overload }
    {
        let mut sample = Packets::new();
        self.fill_into(&mut sample, MemoryView::Image(image), stamp, overload);
        sample
    }

    /// The same of memory as a trigger hands it in, and in place, whatever packets the value has:
    /// it saves the move of a sample. Of memory nothing but the bytes of entries is read.
    pub fn fill_into(
        &self,
        sample: &mut Packets,
        memory: MemoryView<'_>,
        stamp: u32,
        overload: bool,
    )
        requires memory { FitsMemory self.now.channel self.now.segments memory }
        requires by_value { IsByValue self.now }
        ensures { sample.new ≡ packets self.now
            (image_in self.now.channel self.now.segments memory.entry) stamp overload }
    {
        sample.clear();
        for k in 0..self.odts() {
            self.append_packet(sample, memory, stamp, overload, k);
        }
    }

    /// How many copies an ODT needs; `None` exactly where there is no such ODT.
    pub fn runs(&self, k: usize) -> Option<usize>
        ensures { result ≡ option_map copies_needed (slice_get self.now.odts k) }
    {
        if k >= self.odts() {
            return None;
        }
        Some(self.copies_of(k).offsets().len())
    }

    /// The copies that the packet of an ODT is made of: its entries, neighbours joined.
    pub(crate) fn copies_of(&self, k: usize) -> &Spans
        requires { k < length self.now.odts }
        ensures spans { result.now.spans ≡ joined_spans (odt self.now k) }
        ensures placed { ArePlaced self.now.channel self.now.segments result.now }
        ensures plan { IsPlan self.now }
    {
        &self.odts[k]
    }

    /// The PID of an ODT, in ODT 0 with the overload indication.
    fn pid(&self, k: usize, overload: bool) -> u8
        requires { k < length self.now.odts }
        ensures { result ≡ pid self.now k overload }
    {
        let pid = self.first_pid + k as u8;
        if k == 0 && overload { pid + 0x80 } else { pid }
    }

    /// Appends the packet of an ODT.
    fn append_packet(
        &self,
        sample: &mut Packets,
        memory: MemoryView<'_>,
        stamp: u32,
        overload: bool,
        k: usize,
    )
        requires memory { FitsMemory self.now.channel self.now.segments memory }
        requires odt { k < length self.now.odts }
        requires by_value { IsByValue self.now }
        requires room { length sample.old < MAX_ODTS }
        ensures { sample.new ≡ sample.old
            ++ packet self.now (image_in self.now.channel self.now.segments memory.entry) stamp
            overload k ∷ [] }
    {
        let field = self.field(k, overload);
        let stamp = stamp.to_le_bytes();
        let copies = self.copies_of(k);
        let Ok(()) = sample.push_copied(
            &field[..self.form.id.field_len()],
            &stamp[..self.stamp_len(k)],
            memory,
            copies.offsets(),
            copies.stretches(),
        ) else {
            unreachable!();
        };
    }

    /// The identification field of an ODT: the first bytes.
    pub(crate) fn field(&self, k: usize, overload: bool) -> [u8; 4]
        requires odt { k < length self.now.odts }
        ensures { take (field_len self.now.form.id) result ≡ field self.now k overload }
    {
        self.form.id.field(self.pid(k, overload), self.list)
    }

    /// The bytes of the timestamp in the packet of an ODT: in a stamped list ODT 0 has one.
    pub(crate) fn stamp_len(&self, k: usize) -> usize
        ensures value { result ≡ stamp_len self.now.form.stamp self.now.stamped k }
        ensures limit { result ≤ MAX_STAMP }
    {
        if k == 0 && self.stamped {
            self.form.stamp.bytes() as usize
        } else {
            0
        }
    }
}
