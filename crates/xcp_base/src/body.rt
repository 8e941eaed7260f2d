//! The bytes in which a sample's packets are kept, and the copy from memory to them.
ghost use Rattle.std.specs.Prelude.{◌≡◌, ℕ, ◌+◌, ◌<◌, ◌≤◌, [], ◌∷◌, ◌++◌, All, length};
ghost use Rattle.std.specs.Prelude.{slice_range, take};
ghost use Rattle.xcp_base.specs.Copied.{AreSpansIn, AreStretches, copied_from, copied_packet};

use crate::limits::{MAX_BODY, MAX_DTO};
use crate::memory_view::MemoryView;
use crate::put::{put_by_size, put_packet};
use crate::stretch::Stretch;
use std::marker::Model;

/// At most `MAX_BODY` bytes, in a value of fixed size that is copied in one go.
#[derive(Debug, Drop)]
pub(crate) struct Body {
    cells: [u8; MAX_BODY],
    len: usize,
}

impl Model for Body {
    ghost use Rattle.std.specs.Prelude.{List, ℕ, ◌≤◌, take};
    ghost use Rattle.xcp_base.specs.declared.limits.TheConstants.{MAX_BODY};

    ghost Value = { List ℕ };

    ghost view = { λ b. take b.len b.cells };

    ghost invariant = { λ b. b.len ≤ MAX_BODY };
}

impl Body {
    /// No byte.
    pub(crate) fn new() -> Body
        ensures { result ≡ [] }
    {
        Body {
            cells: [0; MAX_BODY],
            len: 0,
        }
    }

    /// The number of bytes.
    pub(crate) fn len(&self) -> usize
        ensures value { result ≡ length self.now }
        ensures limit { result ≤ MAX_BODY }
    {
        self.len
    }

    /// The bytes.
    pub(crate) fn as_slice(&self) -> &[u8]
        ensures value { result.now ≡ self.now }
        ensures limit { length result.now ≤ MAX_BODY }
    {
        &self.cells[..self.len]
    }

    /// The same bytes once more.
    pub(crate) fn copied(&self) -> Body
        ensures { result ≡ self.now }
    {
        Body {
            cells: self.cells,
            len: self.len,
        }
    }

    /// Takes all bytes away.
    pub(crate) fn clear(&mut self)
        ensures { self.new ≡ [] }
    {
        self.len = 0;
    }

    /// Appends bytes, for which there is room.
    pub(crate) fn extend(&mut self, bytes: &[u8])
        requires room { length self.old + length bytes.now ≤ MAX_BODY }
        ensures { self.new ≡ self.old ++ bytes.now }
    {
        let start = self.len;
        self.len = start + bytes.len();
        put_by_size(&mut self.cells, start, bytes);
    }

    /// Appends a packet, for which there is room, behind its length: the field, the timestamp, and
    /// what the spans of stretches copy of memory.
    pub(crate) fn extend_by_packet(
        &mut self,
        field: &[u8],
        stamp: &[u8],
        memory: MemoryView<'_>,
        offsets: &[u32],
        stretches: &[Stretch],
    )
        requires inside { AreSpansIn memory stretches.now offsets.now }
        requires counts { AreStretches stretches.now offsets.now }
        requires room { length self.old
            + length (copied_packet field.now stamp.now memory stretches.now offsets.now)
            < MAX_BODY }
        requires fits { length (copied_packet field.now stamp.now memory stretches.now offsets.now)
            ≤ MAX_DTO }
        ensures value { self.new ≡ self.old
            ++ length (copied_packet field.now stamp.now memory.entry stretches.now offsets.now)
            ∷ copied_packet field.now stamp.now memory.entry stretches.now offsets.now }
        // For the invariant of `Packets`: what was copied are bytes.
        ensures each { All (λ (b : ℕ). b < 256)
            (copied_from memory.entry stretches.now offsets.now) }
    {
        let start = self.len;
        let at = start + 1;
        let end = put_packet(
            &mut self.cells,
            at,
            field,
            stamp,
            memory,
            offsets,
            stretches,
        );
        self.cells[start] = (end - at) as u8;
        self.len = end;
    }
}
