//! The front of a command packet, with its numbers in the order of Intel.

use measured_values::ByteOrder;

/// The first eight bytes of a command packet, or fewer, with the least significant byte of each
/// number first (ASAM MCD-1 XCP, protocol layer, data acquisition commands).
#[derive(Clone, Copy)]
pub struct IntelOrder {
    bytes: [u8; 8],
    len: usize,
}

impl IntelOrder {
    /// The front of a packet whose numbers stand in this order.
    pub fn of(order: ByteOrder, packet: &[u8]) -> IntelOrder {
        let [code, one, a, b, c, d, e, f] = front_of(packet);
        let bytes = match (order, code) {
            (ByteOrder::MsbFirst, 0xE1) => [code, one, a, b, f, e, d, c],
            (ByteOrder::MsbFirst, 0xE0) => [code, one, b, a, d, c, e, f],
            (ByteOrder::MsbFirst, 0xD3..=0xE3) => [code, one, b, a, c, d, e, f],
            _ => [code, one, a, b, c, d, e, f],
        };
        IntelOrder {
            bytes,
            len: packet.len().min(8),
        }
    }

    /// These bytes.
    pub fn bytes(&self) -> &[u8] {
        match self.bytes.get(..self.len) {
            Some(bytes) => bytes,
            None => &[],
        }
    }
}

/// The first eight bytes of a packet, and 0 for those that aren't there.
fn front_of(packet: &[u8]) -> [u8; 8] {
    let mut bytes = [0; 8];
    for (to, from) in bytes.iter_mut().zip(packet) {
        *to = *from;
    }
    bytes
}
