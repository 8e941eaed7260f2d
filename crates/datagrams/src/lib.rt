//! What captured packets carry: IP packets, and UDP datagrams and TCP segments in them.
#![tactic(auto)]

mod datagram;
mod ip;
mod ip_packet;
mod ipv4;
mod ipv6;
mod limits;
mod link;
mod link_frame;
mod next_bytes;
mod partial_datagram;
mod parts;
mod piece;
mod segment;
mod slots;
mod stretch;
mod tcp;
mod tcp_stream;
mod udp;
mod whole_datagram;

pub use datagram::Datagram;
pub use ip::packet_in;
pub use ip_packet::{IpPacket, Part};
pub use ipv4::ipv4_in;
pub use ipv6::{Carried, carried_in, ipv6_in};
pub use limits::{MAX_CAME, MAX_DATAGRAM, MAX_HELD, MAX_SEGMENT, MAX_WAITING};
pub use link::Link;
pub use link_frame::ip_in;
pub use next_bytes::NextBytes;
pub use parts::Parts;
pub use segment::Segment;
pub use tcp::tcp_in;
pub use tcp_stream::TcpStream;
pub use udp::udp_in;
pub use whole_datagram::WholeDatagram;
