//! What IP packets carry.
ghost use Rattle.std.specs.Prelude.{◌≡◌, length, IfSome, IsNone, IsSomeAnd};
ghost use Rattle.std.specs.declared.net.ip_addr.IpAddr.{IpAddr};
ghost use Rattle.capture_recording.specs.Talks.{IsAddress};

use datagrams::{IpPacket, WholeDatagram, carried_in, tcp_in, udp_in};
use std::net::{IpAddr, Ipv4Addr, Ipv6Addr};

/// The protocol numbers of TCP and UDP.
const TCP: u8 = 6;

const UDP: u8 = 17;

/// What IP packets carry, whole or put together.
#[derive(Clone, Copy)]
pub struct IpData<'b> {
    /// The address of the sender.
    pub from: &'b [u8],
    /// That of the receiver.
    pub to: &'b [u8],
    /// The protocol.
    pub protocol: u8,
    /// What is carried.
    pub payload: &'b [u8],
}

impl<'b> IpData<'b> {
    ghost use Rattle.std.specs.Prelude.{◌≡◌, ◌↔◌, ℕ, IfSome, IsNone, IsTrue};
    ghost use Rattle.datagrams.specs.Ip.{ip_of};
    ghost use Rattle.datagrams.specs.Whole.{whole_of};
    ghost use Rattle.capture_recording.specs.Said.{IsBehind, data_in};
    ghost use Rattle.capture_recording.specs.Talks.{HasPorts, data_of};

    /// By a packet that is whole.
    pub fn by_packet(packet: &IpPacket<'b>) -> IpData<'b>
        ensures { IsBehind (data_in (ip_of packet.now)) (data_of result) }
    {
        IpData {
            from: packet.from,
            to: packet.to,
            protocol: packet.protocol,
            payload: packet.payload,
        }
        .behind_extensions()
    }

    /// By the parts of a datagram.
    pub fn by_parts(whole: &'b WholeDatagram) -> IpData<'b>
        ensures { IsBehind (whole_of whole.now) (data_of result) }
    {
        IpData {
            from: &whole.from,
            to: &whole.to,
            protocol: whole.protocol,
            payload: &whole.payload,
        }
        .behind_extensions()
    }

    /// What stands behind the headers of version 6 that extend others, which a part of a datagram
    /// may begin with.
    fn behind_extensions(self) -> IpData<'b>
        ensures { IsBehind (data_of self.entry) (data_of result) }
    {
        if self.from.len() != 16 {
            return self;
        }
        let Some(carried) = carried_in(self.protocol, self.payload) else {
            return self;
        };
        match carried.part {
            Some(_) => self,
            None => IpData {
                protocol: carried.protocol,
                payload: carried.payload,
                ..self
            },
        }
    }

    /// Its ports, of the sender and of the receiver, if it is a datagram of UDP or a segment of
    /// TCP.
    pub fn ports(&self) -> Option<(u16, u16)>
        ensures some { IfSome result (λ ports. HasPorts (data_of self.now) (ports.0, ports.1)) }
        ensures none { IsNone result → (ports : ℕ × ℕ) → HasPorts (data_of self.now) ports → ⊥ }
    {
        match self.protocol {
            UDP => {
                let datagram = udp_in(self.payload)?;
                Some((datagram.from_port, datagram.to_port))
            }
            TCP => {
                let segment = tcp_in(self.payload)?;
                Some((segment.from_port, segment.to_port))
            }
            _ => None,
        }
    }

    /// Whether it is a segment of TCP.
    pub fn is_segment(&self) -> bool
        ensures { IsTrue result ↔ (self.now.protocol ≡ 6) }
    {
        self.protocol == TCP
    }
}

/// An address of 4 bytes or 16.
pub fn address_of(bytes: &[u8]) -> Option<IpAddr>
    ensures some { IfSome result (IsAddress bytes.now) }
    ensures none { IsNone result → (a : IpAddr) → IsAddress bytes.now a → ⊥ }
{
    match bytes.len() {
        4 => v4_of(bytes),
        16 => v6_of(bytes),
        _ => None,
    }
}

/// An address of version 4.
fn v4_of(bytes: &[u8]) -> Option<IpAddr>
    requires { length bytes.now ≡ 4 }
    ensures { IsSomeAnd result (IsAddress bytes.now) }
{
    let octets = bytes.first_chunk::<4>()?;
    Some(IpAddr::V4(Ipv4Addr::from_octets(*octets)))
}

/// An address of version 6.
fn v6_of(bytes: &[u8]) -> Option<IpAddr>
    requires { length bytes.now ≡ 16 }
    ensures { IsSomeAnd result (IsAddress bytes.now) }
{
    let octets = bytes.first_chunk::<16>()?;
    Some(IpAddr::V6(Ipv6Addr::from_octets(*octets)))
}
