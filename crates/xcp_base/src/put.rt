//! Packets are written into bytes: identification field, timestamp, and what is copied of memory.
ghost use Rattle.std.specs.Prelude.{◌≡◌, ℕ, ◌+◌, ◌<◌, ◌≤◌, [], ◌∷◌, ◌++◌, All, length, take};
ghost use Rattle.std.specs.Prelude.{drop, slice_range, true};
ghost use Rattle.xcp_base.specs.Copied.{AreSpansIn, AreStretches, IsSpanAt};
ghost use Rattle.xcp_base.specs.Copied.{copied_at, copied_from, copied_packet, in_fours};

use crate::memory_view::MemoryView;
use crate::stretch::Stretch;

/// Writes the first `len` of four bytes from a place on, and answers where they end.
///
/// All four are written, by one store: those behind `len` are for what comes next to write over.
#[inline]
pub fn put_first(cells: &mut [u8], from: usize, bytes: [u8; 4], len: usize) -> usize
    requires few { len ≤ 4 }
    requires room { from + 4 ≤ length cells.old }
    ensures end { result ≡ from + len }
    ensures front { take result cells.new ≡ take from cells.old ++ take len bytes }
    ensures len { length cells.new ≡ length cells.old }
{
    put_number(cells, from, &bytes);
    from + len
}

/// Writes a packet from a place on: a field, a timestamp, and what the spans of stretches copy of
/// memory. It answers where the packet ends.
#[inline]
pub(crate) fn put_packet(
    cells: &mut [u8],
    from: usize,
    field: &[u8],
    stamp: &[u8],
    memory: MemoryView<'_>,
    offsets: &[u32],
    stretches: &[Stretch],
) -> usize
    requires inside { AreSpansIn memory stretches.now offsets.now }
    requires counts { AreStretches stretches.now offsets.now }
    requires room { from
        + length (copied_packet field.now stamp.now memory stretches.now offsets.now)
        ≤ length cells.old }
    ensures end { result ≡ from
        + length (copied_packet field.now stamp.now memory.entry stretches.now offsets.now) }
    ensures front { take result cells.new ≡ take from cells.old
        ++ copied_packet field.now stamp.now memory.entry stretches.now offsets.now }
    ensures len { length cells.new ≡ length cells.old }
    ensures each { All (λ (b : ℕ). b < 256)
        (copied_from memory.entry stretches.now offsets.now) }
{
    put_by_size(cells, from, field);
    let behind = from + field.len();
    put_by_size(cells, behind, stamp);
    put_copied(cells, behind + stamp.len(), memory, offsets, stretches)
}

/// Whether one span is all that is copied.
fn is_one(offsets: &[u32], stretches: &[Stretch]) -> bool
    ensures yes { result ≡ true → (length offsets.now ≡ 1) × (length stretches.now ≡ 1) }
{
    offsets.len() == 1 && stretches.len() == 1
}

/// Writes what the spans of stretches copy of memory from a place on, and answers where it ends.
///
/// It stands where it is asked for: its arguments take as long to pass as one span to copy.
#[inline(always)]
pub fn put_copied(
    cells: &mut [u8],
    from: usize,
    memory: MemoryView<'_>,
    offsets: &[u32],
    stretches: &[Stretch],
) -> usize
    requires inside { AreSpansIn memory stretches.now offsets.now }
    requires counts { AreStretches stretches.now offsets.now }
    requires room { from + length (copied_from memory stretches.now offsets.now)
        ≤ length cells.old }
    ensures end { result ≡ from + length (copied_from memory.entry stretches.now offsets.now) }
    ensures front { take result cells.new
        ≡ take from cells.old ++ copied_from memory.entry stretches.now offsets.now }
    ensures len { length cells.new ≡ length cells.old }
    ensures each { All (λ (b : ℕ). b < 256)
        (copied_from memory.entry stretches.now offsets.now) }
{
    if is_one(offsets, stretches) {
        let only = &stretches[0];
        return put_one(cells, from, memory.part(only), offsets[0], only.size);
    }
    put_stretches(cells, from, memory, offsets, stretches)
}

/// Writes the bytes of a span, from a place on, and answers where they end.
#[inline]
fn put_one(cells: &mut [u8], from: usize, bytes: &[u8], offset: u32, size: usize) -> usize
    requires inside { IsSpanAt (length bytes.now) size offset }
    requires room { from + length (copied_at bytes.now size (offset ∷ [])) ≤ length cells.old }
    ensures end { result ≡ from + length (copied_at bytes.now size (offset ∷ [])) }
    ensures front { take result cells.new
        ≡ take from cells.old ++ copied_at bytes.now size (offset ∷ []) }
    ensures len { length cells.new ≡ length cells.old }
    ensures each { All (λ (b : ℕ). b < 256) (copied_at bytes.now size (offset ∷ [])) }
{
    let place = offset as usize;
    let piece = &bytes[place..place + size];
    put_by_size(cells, from, piece);
    from + piece.len()
}

/// Writes what the spans of stretches copy of memory from a place on, stretch by stretch, and
/// answers where it ends.
///
/// It stands out of line, so that a packet of one span is written where it is asked for.
#[inline(never)]
fn put_stretches(
    cells: &mut [u8],
    from: usize,
    memory: MemoryView<'_>,
    offsets: &[u32],
    stretches: &[Stretch],
) -> usize
    requires inside { AreSpansIn memory stretches.now offsets.now }
    requires counts { AreStretches stretches.now offsets.now }
    requires room { from + length (copied_from memory stretches.now offsets.now)
        ≤ length cells.old }
    ensures end { result ≡ from + length (copied_from memory.entry stretches.now offsets.now) }
    ensures front { take result cells.new
        ≡ take from cells.old ++ copied_from memory.entry stretches.now offsets.now }
    ensures len { length cells.new ≡ length cells.old }
    ensures each { All (λ (b : ℕ). b < 256)
        (copied_from memory.entry stretches.now offsets.now) }
{
    let mut at = from;
    let mut rest = offsets;
    for stretch in stretches {
        let (these, behind) = rest.split_at(stretch.count);
        at = put_stretch(cells, at, memory.part(stretch), these, stretch.size);
        rest = behind;
    }
    at
}

/// Writes what spans of one size copy of bytes, from a place on, and answers where it ends.
#[inline(always)]
fn put_stretch(cells: &mut [u8], from: usize, bytes: &[u8], offsets: &[u32], size: usize) -> usize
    requires inside { All (IsSpanAt (length bytes.now) size) offsets.now }
    requires room { from + length (copied_at bytes.now size offsets.now) ≤ length cells.old }
    ensures end { result ≡ from + length (copied_at bytes.now size offsets.now) }
    ensures front { take result cells.new
        ≡ take from cells.old ++ copied_at bytes.now size offsets.now }
    ensures len { length cells.new ≡ length cells.old }
    ensures each { All (λ (b : ℕ). b < 256) (copied_at bytes.now size offsets.now) }
{
    if offsets.len() == 1 {
        return put_one(cells, from, bytes, offsets[0], size);
    }
    if size == 4 {
        return put_spans_of::<4>(cells, from, bytes, offsets);
    }
    put_spans_by_size(cells, from, bytes, offsets, size)
}

/// Writes what spans of one size, other than the four bytes of most, copy of bytes, from a place
/// on, and answers where it ends.
///
/// It stands out of line, so that spans of four bytes are found by one comparison, and not by a
/// table of sizes.
#[inline(never)]
fn put_spans_by_size(
    cells: &mut [u8],
    from: usize,
    bytes: &[u8],
    offsets: &[u32],
    size: usize,
) -> usize
    requires inside { All (IsSpanAt (length bytes.now) size) offsets.now }
    requires room { from + length (copied_at bytes.now size offsets.now) ≤ length cells.old }
    ensures end { result ≡ from + length (copied_at bytes.now size offsets.now) }
    ensures front { take result cells.new
        ≡ take from cells.old ++ copied_at bytes.now size offsets.now }
    ensures len { length cells.new ≡ length cells.old }
    ensures each { All (λ (b : ℕ). b < 256) (copied_at bytes.now size offsets.now) }
{
    if size == 2 {
        return put_spans_of::<2>(cells, from, bytes, offsets);
    }
    if size == 1 {
        return put_spans_of::<1>(cells, from, bytes, offsets);
    }
    if size == 8 {
        return put_spans_of::<8>(cells, from, bytes, offsets);
    }
    put_spans(cells, from, bytes, offsets, size)
}

/// Writes what spans of N bytes each copy of bytes, from a place on, and answers where it ends.
/// Four copies stand behind one test.
#[inline]
fn put_spans_of<const N: usize>(
    cells: &mut [u8],
    from: usize,
    bytes: &[u8],
    offsets: &[u32],
) -> usize
    requires inside { All (IsSpanAt (length bytes.now) N) offsets.now }
    requires room { from + length (copied_at bytes.now N offsets.now) ≤ length cells.old }
    ensures end { result ≡ from + length (copied_at bytes.now N offsets.now) }
    ensures front { take result cells.new
        ≡ take from cells.old ++ copied_at bytes.now N offsets.now }
    ensures len { length cells.new ≡ length cells.old }
    ensures each { All (λ (b : ℕ). b < 256) (copied_at bytes.now N offsets.now) }
{
    let (fours, rest) = offsets.as_chunks::<4>();
    let at = put_fours::<N>(cells, from, bytes, fours);
    put_rest::<N>(cells, at, bytes, rest)
}

/// Writes what spans of N bytes each, four by four, copy of bytes, from a place on, and answers
/// where it ends.
#[inline]
fn put_fours<const N: usize>(
    cells: &mut [u8],
    from: usize,
    bytes: &[u8],
    fours: &[[u32; 4]],
) -> usize
    requires inside { All (IsSpanAt (length bytes.now) N) (in_fours fours.now) }
    requires room { from + length (copied_at bytes.now N (in_fours fours.now)) ≤ length cells.old }
    ensures end { result ≡ from + length (copied_at bytes.now N (in_fours fours.now)) }
    ensures front { take result cells.new
        ≡ take from cells.old ++ copied_at bytes.now N (in_fours fours.now) }
    ensures len { length cells.new ≡ length cells.old }
{
    let mut at = from;
    for four in fours {
        at = put_four::<N>(cells, at, bytes, four);
    }
    at
}

/// Writes what four spans of N bytes each copy of bytes, from a place on, and answers where it
/// ends.
#[inline]
fn put_four<const N: usize>(cells: &mut [u8], from: usize, bytes: &[u8], four: &[u32; 4]) -> usize
    requires inside { All (IsSpanAt (length bytes.now) N) four.now }
    requires room { from + length (copied_at bytes.now N four.now) ≤ length cells.old }
    ensures end { result ≡ from + length (copied_at bytes.now N four.now) }
    ensures front { take result cells.new
        ≡ take from cells.old ++ copied_at bytes.now N four.now }
    ensures len { length cells.new ≡ length cells.old }
{
    let second = put_span::<N>(cells, from, bytes, four[0]);
    let third = put_span::<N>(cells, second, bytes, four[1]);
    let fourth = put_span::<N>(cells, third, bytes, four[2]);
    put_span::<N>(cells, fourth, bytes, four[3])
}

/// Writes what a span of N bytes copies of bytes, from a place on, and answers where it ends.
#[inline]
fn put_span<const N: usize>(cells: &mut [u8], from: usize, bytes: &[u8], offset: u32) -> usize
    requires inside { IsSpanAt (length bytes.now) N offset }
    requires room { from + length (copied_at bytes.now N (offset ∷ [])) ≤ length cells.old }
    ensures end { result ≡ from + length (copied_at bytes.now N (offset ∷ [])) }
    ensures front { take result cells.new
        ≡ take from cells.old ++ copied_at bytes.now N (offset ∷ []) }
    ensures len { length cells.new ≡ length cells.old }
{
    put_number(cells, from, &bytes_at::<N>(bytes, offset as usize));
    from + N
}

/// Writes what the spans behind the fours, of N bytes each, copy of bytes, from a place on, and
/// answers where it ends.
#[inline]
fn put_rest<const N: usize>(cells: &mut [u8], from: usize, bytes: &[u8], offsets: &[u32]) -> usize
    requires inside { All (IsSpanAt (length bytes.now) N) offsets.now }
    requires room { from + length (copied_at bytes.now N offsets.now) ≤ length cells.old }
    ensures end { result ≡ from + length (copied_at bytes.now N offsets.now) }
    ensures front { take result cells.new
        ≡ take from cells.old ++ copied_at bytes.now N offsets.now }
    ensures len { length cells.new ≡ length cells.old }
{
    let mut at = from;
    for offset in offsets {
        at = put_span::<N>(cells, at, bytes, *offset);
    }
    at
}

/// The N bytes from a place on.
#[inline]
fn bytes_at<const N: usize>(bytes: &[u8], from: usize) -> [u8; N]
    requires inside { from + N ≤ length bytes.now }
    ensures { result ≡ slice_range bytes.now from (from + N) }
{
    let mut read = [0; N];
    for k in 0..N {
        read[k] = bytes[from + k];
    }
    read
}

/// Writes N bytes from a place on. All were read before, so that they can be moved as one number;
/// a slice of them might lie over the cells.
#[inline]
pub fn put_number<const N: usize>(cells: &mut [u8], start: usize, bytes: &[u8; N])
    requires room { start + N ≤ length cells.old }
    ensures front { take (start + N) cells.new ≡ take start cells.old ++ bytes.now }
    ensures behind { drop (start + N) cells.new ≡ drop (start + N) cells.old }
    ensures len { length cells.new ≡ length cells.old }
{
    for k in 0..N {
        cells[start + k] = bytes[k];
    }
}

/// Writes what spans of any one size copy of bytes, from a place on, and answers where it ends.
///
/// It stands out of line: it calls for the bytes of each span, and the loops over spans of one size
/// don't.
#[inline(never)]
fn put_spans(cells: &mut [u8], from: usize, bytes: &[u8], offsets: &[u32], size: usize) -> usize
    requires inside { All (IsSpanAt (length bytes.now) size) offsets.now }
    requires room { from + length (copied_at bytes.now size offsets.now) ≤ length cells.old }
    ensures end { result ≡ from + length (copied_at bytes.now size offsets.now) }
    ensures front { take result cells.new
        ≡ take from cells.old ++ copied_at bytes.now size offsets.now }
    ensures len { length cells.new ≡ length cells.old }
    ensures each { All (λ (b : ℕ). b < 256) (copied_at bytes.now size offsets.now) }
{
    let mut at = from;
    for offset in offsets {
        at = put_one(cells, at, bytes, *offset, size);
    }
    at
}

/// Writes bytes from a place on: those of the sizes that identification fields and timestamps have
/// by their size.
#[inline]
pub(crate) fn put_by_size(cells: &mut [u8], start: usize, bytes: &[u8])
    requires room { start + length bytes.now ≤ length cells.old }
    ensures front { take (start + length bytes.now) cells.new ≡ take start cells.old ++ bytes.now }
    ensures len { length cells.new ≡ length cells.old }
{
    if bytes.is_empty() {
        return;
    }
    if bytes.len() == 1 {
        put_whole::<1>(cells, start, bytes);
        return;
    }
    if bytes.len() == 2 {
        put_whole::<2>(cells, start, bytes);
        return;
    }
    if bytes.len() == 3 {
        put_whole::<3>(cells, start, bytes);
        return;
    }
    if bytes.len() == 4 {
        put_whole::<4>(cells, start, bytes);
        return;
    }
    put(cells, start, bytes);
}

/// Writes bytes, of which there are N, from a place on.
#[inline]
fn put_whole<const N: usize>(cells: &mut [u8], start: usize, bytes: &[u8])
    requires size { length bytes.now ≡ N }
    requires room { start + N ≤ length cells.old }
    ensures front { take (start + length bytes.now) cells.new ≡ take start cells.old ++ bytes.now }
    ensures len { length cells.new ≡ length cells.old }
{
    put_number(cells, start, &bytes_at::<N>(bytes, 0));
}

/// Writes bytes from a place on.
#[inline]
fn put(cells: &mut [u8], start: usize, bytes: &[u8])
    requires room { start + length bytes.now ≤ length cells.old }
    ensures front { take (start + length bytes.now) cells.new ≡ take start cells.old ++ bytes.now }
    ensures len { length cells.new ≡ length cells.old }
{
    cells[start..start + bytes.len()].copy_from_slice(bytes);
}
