//! The entries of an ODT as spans of memory: entries that touch are copied as one.
ghost use Rattle.std.specs.Prelude.{◌≡◌, ◌==◌, ◌-◌, ◌<◌, ◌≤◌, ◌&&◌, IfOk, All, true, length};
ghost use Rattle.std.specs.List.{list_all};
ghost use Rattle.segments.specs.Image.{HaveImage};
ghost use Rattle.daq_store.specs.Configuration.{entry_of, is_within, odt_entries};
ghost use Rattle.copy_plan.specs.Config.{written_entries};
ghost use Rattle.copy_plan.specs.Inner.Joined.{joined_spans};
ghost use Rattle.copy_plan.specs.Inner.Stretched.{AreEndsOf, ArePlaced, BeginsNear, IsNear};
ghost use Rattle.copy_plan.specs.Inner.Stretched.{IsStretchAt, LiesSomewhere};

use crate::span::Span;
use daq_store::ListConf;
use segments::{Segment, image_place, image_start, segment_at};
use std::alloc::{AllocError, Global};
use std::marker::Model;
use std::snapshot::Snapshot;
use xcp_base::Stretch;
use xcp_base::limits::MAX_CHANNELS;

/// The spans of one ODT: its entries in their order, neighbours joined. Of each its offset in its
/// segment is kept, and the stretches of those of one size in one segment.
///
/// Contracts see the spans themselves, as parts of an image of all memory; these have no bytes.
#[derive(Drop)]
pub struct Spans {
    offsets: Vec<u32>,
    stretches: Vec<Stretch>,
    spans: Snapshot<Vec<Span>>,
}

impl Model for Spans {
    ghost use Rattle.copy_plan.specs.Inner.Stretched.{SpansState};

    ghost Value = { SpansState };

    ghost view = { λ a. record {
      spans = a.spans.value.items;
      stretches = a.stretches.items;
      offsets = a.offsets.items;
    } };
}

impl Spans {
    /// The spans of an ODT, of which there is at least one entry, and an event channel may read
    /// each.
    pub fn of(
        alloc: Global,
        conf: &ListConf,
        odt: usize,
        channel: u8,
        segments: &[Segment],
    ) -> Result<Spans, AllocError>
        requires image { HaveImage segments.now }
        requires channel { channel < MAX_CHANNELS }
        requires some { 0 < length (odt_entries conf.now odt) }
        requires within { list_all (is_within channel segments.now) (odt_entries conf.now odt)
            ≡ true }
        ensures spans { IfOk result (λ spans. spans.spans
            ≡ joined_spans (written_entries channel segments.now (odt_entries conf.now odt))) }
        ensures placed { IfOk result (ArePlaced channel segments.now) }
    {
        let spans = spans_of(alloc, conf, odt, channel, segments)?;
        let (stretches, offsets) = stretches_of(alloc, &spans, channel, segments)?;
        Ok(Spans {
            offsets,
            stretches,
            spans: Snapshot::of(&spans),
        })
    }

    /// The offsets of the spans in their order.
    pub fn offsets(&self) -> &[u32]
        ensures { result.now ≡ self.now.offsets }
    {
        &self.offsets
    }

    /// The stretches of the spans.
    pub fn stretches(&self) -> &[Stretch]
        ensures { result.now ≡ self.now.stretches }
    {
        &self.stretches
    }
}

/// The spans of an ODT: its entries in their order, neighbours joined.
fn spans_of(
    alloc: Global,
    conf: &ListConf,
    odt: usize,
    channel: u8,
    segments: &[Segment],
) -> Result<Vec<Span>, AllocError>
    requires image { HaveImage segments.now }
    requires channel { channel < MAX_CHANNELS }
    requires some { 0 < length (odt_entries conf.now odt) }
    requires within { list_all (is_within channel segments.now) (odt_entries conf.now odt) ≡ true }
    ensures spans { IfOk result (λ spans. spans.items
        ≡ joined_spans (written_entries channel segments.now (odt_entries conf.now odt))) }
    ensures lie { IfOk result (λ spans. All (LiesSomewhere channel segments.now) spans.items) }
    ensures near { IfOk result (λ spans. All (BeginsNear channel segments.now) spans.items) }
    ensures some { IfOk result (λ spans. 0 < length spans.items) }
{
    let mut spans = Vec::with_capacity(alloc, conf.entries(odt))?;
    let (mut start, mut end) = ends_of(conf, odt, 0, channel, segments);
    for entry in 1..conf.entries(odt) {
        let (next, last) = ends_of(conf, odt, entry, channel, segments);
        if !begins_at(next, end) {
            spans.push(Span { start, end })?;
            start = next;
        }
        end = last;
    }
    let last = Span { start, end };
    spans.push(last)?;
    Ok(spans)
}

/// Where an entry begins and ends in the image.
fn ends_of(
    conf: &ListConf,
    odt: usize,
    entry: usize,
    channel: u8,
    segments: &[Segment],
) -> (usize, usize)
    requires image { HaveImage segments.now }
    requires channel { channel < MAX_CHANNELS }
    requires there { entry < length (odt_entries conf.now odt) }
    requires within { list_all (is_within channel segments.now) (odt_entries conf.now odt) ≡ true }
    ensures ends { AreEndsOf channel segments.now (entry_of conf.now odt entry) result }
    // An address has 32 bits.
    ensures near { IsNear channel segments.now result.0 }
{
    let Some(written) = conf.written(odt, entry) else {
        unreachable!();
    };
    let address = written.address as usize;
    let size = written.size as usize;
    let Some(start) = image_place(segments, channel, written.extension, address, size) else {
        unreachable!();
    };
    (start, start + size)
}

/// The stretches of some spans, in which neighbours of one size in one segment are, and the offset
/// of each span.
fn stretches_of(
    alloc: Global,
    spans: &[Span],
    channel: u8,
    segments: &[Segment],
) -> Result<(Vec<Stretch>, Vec<u32>), AllocError>
    requires image { HaveImage segments.now }
    requires channel { channel < MAX_CHANNELS }
    requires some { 0 < length spans.now }
    requires lie { All (LiesSomewhere channel segments.now) spans.now }
    requires near { All (BeginsNear channel segments.now) spans.now }
    ensures { IfOk result (λ both. ArePlaced channel segments.now
        (record { spans = spans.now; stretches = both.0.items; offsets = both.1.items })) }
{
    let mut stretches = Vec::with_capacity(alloc, spans.len())?;
    let mut offsets = Vec::with_capacity(alloc, spans.len())?;
    let mut stretch = stretch_at(&spans[0], channel, segments);
    for span in spans {
        let next = stretch_at(span, channel, segments);
        offsets.push(offset_in(span, next.start))?;
        if !goes_on(stretch, next) {
            stretches.push(stretch)?;
            stretch = next;
        }
        stretch.count += 1;
    }
    stretches.push(stretch)?;
    Ok((stretches, offsets))
}

/// A stretch of no spans, of the size of a span and in its segment.
fn stretch_at(span: &Span, channel: u8, segments: &[Segment]) -> Stretch
    requires image { HaveImage segments.now }
    requires channel { channel < MAX_CHANNELS }
    requires lies { LiesSomewhere channel segments.now span.now }
    ensures { IsStretchAt channel segments.now span.now result }
{
    let Some(segment) = segment_at(segments, channel, span.start, span.end) else {
        unreachable!();
    };
    Stretch {
        segment: segment as u8,
        start: image_start(segments, segment),
        size: span.end - span.start,
        count: 0,
    }
}

/// Where a span begins in the segment that begins at `start`.
fn offset_in(span: &Span, start: usize) -> u32
    requires begins { start ≤ span.now.start }
    requires near { span.now.start - start < 4294967296 }
    ensures { result ≡ span.now.start - start }
{
    (span.start - start) as u32
}

/// Whether spans of one stretch and those of the next are of one size, and in one segment.
fn goes_on(stretch: Stretch, next: Stretch) -> bool
    ensures { result ≡ (stretch.size == next.size && stretch.segment == next.segment) }
{
    stretch.size == next.size && stretch.segment == next.segment
}

/// Whether an entry begins where the bytes before it end.
fn begins_at(start: usize, end: usize) -> bool
    ensures { result ≡ (start == end) }
{
    start == end
}
