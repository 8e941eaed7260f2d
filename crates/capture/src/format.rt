//! The format of a capture.

use crate::pcap_header::PcapHeader;
use measured_values::ByteOrder;

/// The format of a capture.
#[derive(Clone, Copy)]
pub enum Format {
    /// A file of libpcap, with this header.
    Pcap(PcapHeader),
    /// A file of pcapng, in a section of this byte order.
    Pcapng(ByteOrder),
}
