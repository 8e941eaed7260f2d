//! The packets of a sample in one value: appended, copied from memory, or read off bytes.
ghost use Rattle.std.specs.Prelude.{◌≡◌, ℕ, ◌<◌, ◌≤◌, ◌+◌, List, [], ◌∷◌, ◌++◌, ◌↔◌, IfSome};
ghost use Rattle.std.specs.Prelude.{true, false, All, IsNone, IsOk, OnErr, OnOk, drop, length};
ghost use Rattle.std.specs.Prelude.{slice_get, slice_index, take};
ghost use Rattle.std.specs.Option.{option_copied};
ghost use Rattle.xcp_base.specs.Bodies.{IsBodyOf, body_of};
ghost use Rattle.xcp_base.specs.Copied.{AreSpansIn, AreStretches, copied_packet};
ghost use Rattle.xcp_base.specs.Inner.{BeginsWithPacket, EndsAt, HasPackets};
ghost use Rattle.xcp_base.specs.Packets.{ArePackets, IsPacket};

use crate::body::Body;
use crate::limits::{MAX_BODY, MAX_DTO, MAX_ODTS};
use crate::memory_view::MemoryView;
use crate::packet_iter::PacketIter;
use crate::stretch::Stretch;
use std::marker::Model;
use thiserror::Error;

/// There is no room for another packet: as many are there as a DAQ list may have ODTs.
#[derive(Clone, Copy, Debug, PartialEq, Eq, Error)]
#[error("there is no room for another packet")]
pub struct Full;

/// The packets of a sample: at most `MAX_ODTS`, each of 1 to `MAX_DTO` bytes, in a value of fixed
/// size.
#[derive(Debug, Drop)]
pub struct Packets {
    body: Body,
    count: usize,
}

impl Model for Packets {
    ghost use Rattle.std.specs.Prelude.{List, ℕ};
    ghost use Rattle.xcp_base.specs.Inner.{IsBody, packets_view};

    ghost Value = { List (List ℕ) };

    ghost view = { packets_view };

    ghost invariant = { IsBody };
}

impl Packets {
    /// No packet.
    #[tactic(auto, unfolding(crate::specs::Bodies::packets_of_body, crate::specs::Bodies::body_of))]
    pub fn new() -> Packets
        ensures { result ≡ [] }
    {
        Packets {
            body: Body::new(),
            count: 0,
        }
    }

    /// The same packets once more.
    pub fn copied(&self) -> Packets
        ensures { result ≡ self.now }
    {
        Packets {
            body: self.body.copied(),
            count: self.count,
        }
    }

    /// Takes all packets away.
    #[tactic(auto, unfolding(crate::specs::Bodies::packets_of_body, crate::specs::Bodies::body_of))]
    pub fn clear(&mut self)
        ensures { self.new ≡ [] }
    {
        self.body.clear();
        self.count = 0;
    }

    /// The number of packets.
    pub fn len(&self) -> usize
        ensures value { result ≡ length self.now }
        ensures limit { result ≤ MAX_ODTS }
        ensures each { ArePackets self.now }
    {
        self.count
    }

    /// Appends a packet; refused with `Full` exactly where `MAX_ODTS` packets are there, which then
    /// stay as they are.
    pub fn push(&mut self, packet: &[u8]) -> Result<(), Full>
        requires not_empty { 0 < length packet.now }
        requires fits { length packet.now ≤ MAX_DTO }
        ensures succeeds { IsOk result ↔ (length self.old < MAX_ODTS) }
        ensures ok { OnOk result (self.new ≡ self.old ++ packet.now ∷ []) }
        ensures full { OnErr result (length self.old ≡ MAX_ODTS) }
        ensures err { OnErr result (self.new ≡ self.old) }
    {
        self.push_copied(packet, &[], MemoryView::Image(&[]), &[], &[])
    }

    /// Appends a packet of an identification field, a timestamp, which may have no bytes, and what
    /// the spans of stretches copy of memory. Refused as `push` is.
    pub fn push_copied(
        &mut self,
        field: &[u8],
        stamp: &[u8],
        memory: MemoryView<'_>,
        offsets: &[u32],
        stretches: &[Stretch],
    ) -> Result<(), Full>
        requires not_empty { 0 < length field.now }
        requires inside { AreSpansIn memory stretches.now offsets.now }
        requires counts { AreStretches stretches.now offsets.now }
        requires fits { length (copied_packet field.now stamp.now memory stretches.now offsets.now)
            ≤ MAX_DTO }
        ensures succeeds { IsOk result ↔ (length self.old < MAX_ODTS) }
        ensures ok { OnOk result (self.new ≡ self.old
            ++ copied_packet field.now stamp.now memory.entry stretches.now offsets.now ∷ []) }
        ensures full { OnErr result (length self.old ≡ MAX_ODTS) }
        ensures err { OnErr result (self.new ≡ self.old) }
    {
        if self.count == MAX_ODTS {
            return Err(Full);
        }
        self.body
            .extend_by_packet(field, stamp, memory, offsets, stretches);
        self.count += 1;
        Ok(())
    }

    /// The packets, one behind another, each behind a byte that has its length.
    pub fn body(&self) -> &[u8]
        ensures value { result.now ≡ body_of self.now }
        ensures limit { length result.now ≤ MAX_BODY }
        ensures each { ArePackets self.now }
        ensures few { length self.now ≤ MAX_ODTS }
    {
        self.body.as_slice()
    }

    /// Reads packets off their body, in the place of those that were there. Bytes that are no body
    /// of so many packets are refused, and nothing changes then.
    pub fn read_body(&mut self, count: u8, body: &[u8]) -> bool
        ensures yes { result ≡ true → IsBodyOf count body.now self.new }
        ensures no { result ≡ false → (qs : List (List ℕ)) → ¬ IsBodyOf count body.now qs }
        ensures stays { result ≡ false → self.new ≡ self.old }
    {
        let count = count as usize;
        if count > MAX_ODTS {
            return false;
        }
        if !is_body_of(body, count) {
            return false;
        }
        self.body.clear();
        self.body.extend(body);
        self.count = count;
        true
    }

    /// The packets in order, each found where the one before it ends.
    pub fn iter(&self) -> PacketIter<'_>
        ensures value { result ≡ self.now }
        ensures each { ArePackets self.now }
        ensures few { length self.now ≤ MAX_ODTS }
    {
        PacketIter { rest: self.body() }
    }

    /// The packet at an index, counted from 0; `None` exactly where there is none.
    ///
    /// It goes over the packets before it. Whoever wants all of them takes `iter`.
    pub fn get(&self, index: usize) -> Option<&[u8]>
        ensures value { option_copied result ≡ slice_get self.now index }
        ensures packet { IfSome result (λ q. IsPacket q.now) }
    {
        if index >= self.count {
            return None;
        }
        let mut rest = self.body.as_slice();
        for _ in 0..index {
            rest = after_first(rest);
        }
        Some(first(rest))
    }
}

/// Where the packet ends that begins at `start`, behind its length; `None` where there is none.
fn packet_end(body: &[u8], start: usize) -> Option<usize>
    ensures some { IfSome result (λ end. EndsAt body.now start end) }
    ensures none { IsNone result → ¬ BeginsWithPacket (drop start body.now) }
{
    if start >= body.len() {
        return None;
    }
    let len = body[start] as usize;
    if len == 0 || len > MAX_DTO {
        return None;
    }
    if len >= body.len() - start {
        return None;
    }
    Some(start + 1 + len)
}

/// Whether bytes are the body of so many packets.
fn is_body_of(body: &[u8], count: usize) -> bool
    ensures yes { result ≡ true → HasPackets count body.now }
    ensures no { result ≡ false → (qs : List (List ℕ)) → ¬ IsBodyOf count body.now qs }
{
    let mut end = 0;
    for _ in 0..count {
        let Some(next) = packet_end(body, end) else {
            return false;
        };
        end = next;
    }
    if end < body.len() {
        return false;
    }
    true
}

/// The packet that stands first in a body.
fn first(body: &[u8]) -> &[u8]
    requires some { 0 < length body.now }
    requires whole { 1 + slice_index body.now 0 ≤ length body.now }
    ensures { result.now ≡ take (slice_index body.now 0) (drop 1 body.now) }
{
    &body[1..1 + body[0] as usize]
}

/// What stands behind the first packet of a body.
fn after_first(body: &[u8]) -> &[u8]
    requires some { 0 < length body.now }
    requires whole { 1 + slice_index body.now 0 ≤ length body.now }
    ensures { result.now ≡ drop (1 + slice_index body.now 0) body.now }
{
    &body[1 + body[0] as usize..]
}
