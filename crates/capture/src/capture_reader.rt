//! Captures, packet by packet.

use crate::block_kind::BlockKind;
use crate::blocks::{
    SHORTEST, Whole, enhanced_in, is_of_version_1, is_section_header, kind_of, order_of, simple_in,
    whole_block,
};
use crate::capture_fault::CaptureFault;
use crate::captured::Captured;
use crate::format::Format;
use crate::interface::Interface;
use crate::interface_block::interface_in;
use crate::limits::{MAX_INTERFACES, MAX_UNIT};
use crate::numbers::number_at;
use crate::pcap_header::PcapHeader;
use crate::pcap_records::{HEADER, RECORD_HEAD, header_in, packet_in};
use crate::step::Step;
use measured_values::ByteOrder;
use std::alloc::Global;
use std::marker::Model;

/// What is known of a capture whose packets are read: its format, once its first bytes were seen,
/// and the interfaces of the section of a pcapng file.
#[derive(Drop)]
pub struct CaptureReader {
    format: Option<Format>,
    interfaces: Vec<Interface>,
}

impl Model for CaptureReader {
    ghost use Rattle.capture.specs.Units.{Known};

    ghost Value = { Known };

    ghost view = { λ a. record { format = a.format; interfaces = a.interfaces.items } };
}

impl CaptureReader {
    ghost use Rattle.std.specs.Prelude.{◌≡◌, ◌⊎◌, ◌≤◌, ◌++◌, ◌∷◌, [], length, true};
    ghost use Rattle.std.specs.Prelude.{IfErr, IfOk, None, OnErr, OnOk, Some};
    ghost use Rattle.capture.specs.Blocks.{begins_section};
    ghost use Rattle.capture.specs.Blocks.{kind_of as kind_of_type};
    ghost use Rattle.capture.specs.Inner.{MayBegin, SaysNone, packets_of};
    ghost use Rattle.capture.specs.Numbers.{field};
    ghost use Rattle.capture.specs.Standing.{LeadsOn, StandsAfter};
    ghost use Rattle.capture.specs.Units.{RefusesStep, Says, Steps};
    ghost use Rattle.capture.specs.declared.format.Format.TheVariants.{Pcap, Pcapng};

    /// A reader that took no byte.
    pub fn new(alloc: Global) -> CaptureReader
        ensures fresh { result ≡ record { format = None; interfaces = [] } }
        ensures stands { StandsAfter result [] [] }
    {
        CaptureReader {
            format: None,
            interfaces: Vec::new(alloc),
        }
    }

    /// What stands next: a header, a packet, or a block that holds none. Of the bytes, which go on
    /// where those before ended, as many are taken as the step says. A reader that wants more is
    /// called again with these bytes and those behind them.
    ///
    /// Refused if no capture begins so, if a block is none, or if more than `MAX_UNIT` bytes would
    /// be wanted; then nothing is taken, and the reader is as it was.
    pub fn next<'b>(&mut self, bytes: &'b [u8]) -> Result<Step<'b>, CaptureFault>
        ensures ok { IfOk result (Steps self.old self.new bytes.now) }
        ensures leads { IfOk result (LeadsOn self.old self.new bytes.now) }
        ensures err { IfErr result (RefusesStep self.old bytes.now) }
        ensures stays { OnErr result (self.new ≡ self.old) }
    {
        match self.format {
            None => self.begin(bytes),
            Some(Format::Pcap(header)) => self.next_record(header, bytes),
            Some(Format::Pcapng(order)) => self.next_block(order, bytes),
        }
    }

    /// The first header or block.
    fn begin<'b>(&mut self, bytes: &'b [u8]) -> Result<Step<'b>, CaptureFault>
        requires { self.old.format ≡ None }
        ensures ok { IfOk result (Steps self.old self.new bytes.now) }
        ensures err { IfErr result (RefusesStep self.old bytes.now) }
        ensures stays { OnErr result (self.new ≡ self.old) }
    {
        if bytes.len() < SHORTEST {
            return Ok(Step::Wants(SHORTEST));
        }
        if is_section_header(bytes) {
            return self.next_section(bytes);
        }
        if bytes.len() < HEADER {
            return Ok(Step::Wants(HEADER));
        }
        let Some(header) = header_in(&bytes[..HEADER]) else {
            return Err(CaptureFault::NoCapture);
        };
        self.format = Some(Format::Pcap(header));
        Ok(Step::Passed(HEADER))
    }

    /// The section header block that begins here.
    fn next_section<'b>(&mut self, bytes: &'b [u8]) -> Result<Step<'b>, CaptureFault>
        requires head { 12 ≤ length bytes.now }
        requires some { begins_section bytes.now ≡ true }
        requires may { MayBegin self.old.format }
        ensures ok { IfOk result (Steps self.old self.new bytes.now) }
        ensures err { IfErr result (RefusesStep self.old bytes.now) }
        ensures stays { OnErr result (self.new ≡ self.old) }
    {
        let order = order_of(bytes);
        let len = match whole_block(order, bytes)? {
            Whole::Block(len) => len,
            Whole::Wants(len) => return Ok(Step::Wants(len)),
        };
        if !is_of_version_1(order, &bytes[..len]) {
            return Err(CaptureFault::Bad);
        }
        self.format = Some(Format::Pcapng(order));
        self.interfaces.clear();
        Ok(Step::Passed(len))
    }

    /// The next block of a file of pcapng.
    fn next_block<'b>(
        &mut self,
        order: ByteOrder,
        bytes: &'b [u8],
    ) -> Result<Step<'b>, CaptureFault>
        requires { self.old.format ≡ Some (Pcapng order) }
        ensures ok { IfOk result (Steps self.old self.new bytes.now) }
        ensures err { IfErr result (RefusesStep self.old bytes.now) }
        ensures stays { OnErr result (self.new ≡ self.old) }
    {
        if bytes.len() < SHORTEST {
            return Ok(Step::Wants(SHORTEST));
        }
        if is_section_header(bytes) {
            return self.next_section(bytes);
        }
        let len = match whole_block(order, bytes)? {
            Whole::Block(len) => len,
            Whole::Wants(len) => return Ok(Step::Wants(len)),
        };
        match self.take_block(order, &bytes[..len])? {
            Some(packet) => Ok(Step::Packet(len, packet)),
            None => Ok(Step::Passed(len)),
        }
    }

    /// What a block holds that doesn't begin a section.
    fn take_block<'b>(
        &mut self,
        order: ByteOrder,
        block: &'b [u8],
    ) -> Result<Option<Captured<'b>>, CaptureFault>
        requires { 12 ≤ length block.now }
        ensures ok { IfOk result (λ p. Says (kind_of_type (field order 4 0 block.now)) order
            self.old.interfaces block.now (packets_of p) self.new.interfaces) }
        ensures format { self.new.format ≡ self.old.format }
        ensures err { IfErr result (SaysNone (kind_of_type (field order 4 0 block.now)) order
            self.old.interfaces block.now) }
        ensures stays { OnErr result (self.new ≡ self.old) }
    {
        match kind_of(order, block) {
            BlockKind::InterfaceDescription => {
                let interface = interface_in(order, block)?;
                self.add(interface)?;
                Ok(None)
            }
            BlockKind::EnhancedPacket => Ok(Some(enhanced_in(order, block, &self.interfaces)?)),
            BlockKind::SimplePacket => Ok(Some(simple_in(order, block, &self.interfaces)?)),
            BlockKind::Other => Ok(None),
            // for the proof: no such block comes here
            BlockKind::SectionHeader => Err(CaptureFault::Bad),
        }
    }

    /// One interface more of a section.
    fn add(&mut self, interface: Interface) -> Result<(), CaptureFault>
        ensures ok { OnOk result
            (self.new.interfaces ≡ self.old.interfaces ++ interface ∷ []) }
        ensures format { self.new.format ≡ self.old.format }
        ensures err { IfErr result (λ fault. (fault ≡ CaptureFault.Memory)
            ⊎ ((fault ≡ CaptureFault.ManyInterfaces)
            × (MAX_INTERFACES ≤ length self.old.interfaces))) }
        ensures stays { OnErr result (self.new ≡ self.old) }
    {
        if self.interfaces.len() >= MAX_INTERFACES {
            return Err(CaptureFault::ManyInterfaces);
        }
        if self.interfaces.push(interface).is_err() {
            return Err(CaptureFault::Memory);
        }
        Ok(())
    }

    /// The next record of a file of libpcap.
    fn next_record<'b>(&self, header: PcapHeader, bytes: &'b [u8]) -> Result<Step<'b>, CaptureFault>
        requires { self.now.format ≡ Some (Pcap header) }
        ensures ok { IfOk result (Steps self.now self.now bytes.now) }
        ensures err { IfErr result (RefusesStep self.now bytes.now) }
    {
        if bytes.len() < RECORD_HEAD {
            return Ok(Step::Wants(RECORD_HEAD));
        }
        let len = RECORD_HEAD + number_at(header.order, bytes, 8, 4) as usize;
        if len > MAX_UNIT {
            return Err(CaptureFault::Long);
        }
        if bytes.len() < len {
            return Ok(Step::Wants(len));
        }
        Ok(Step::Packet(len, packet_in(header, &bytes[..len])))
    }
}
