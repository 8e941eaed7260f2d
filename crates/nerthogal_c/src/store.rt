//! The calls of a store.

ghost use Rattle.std.specs.Prelude.{◌≡◌};
ghost use Rattle.c_engine.specs.Statuses.{number_of};
ghost use Rattle.c_engine.specs.Answers.{CarriesCommand, Frees, MakesStore};
ghost use Rattle.c_engine.specs.declared.status.Status.{Status as StatusOf};

use c_engine::{Handle, StoreNumbers, carry_packet, make_store};
use std::alloc::Global;

/// Makes a store without DAQ lists, for 1 to 8 event channels and images of 1 to 4096 bytes, and
/// puts it into an empty handle. Its packets have the identification field with this number of
/// `ng_id_kind`, and timestamps of 1, 2 or 4 bytes.
///
/// Refused in this order: a handle that isn't empty, limits, lack of memory.
#[unsafe(no_mangle)]
pub extern "C" fn ng_store_new(
    alloc: Global,
    channels: u16,
    image_len: usize,
    id: u32,
    stamp_size: u8,
    store: &mut Handle,
) -> u32
    ensures { (status : StatusOf) × (result ≡ number_of status)
        × MakesStore store.old.held store.new.held (record {
          channels = channels;
          image_len = image_len;
          id = id;
          stamp_size = stamp_size;
        }) status }
{
    let asked = StoreNumbers {
        channels,
        image_len,
        id,
        stamp_size,
    };
    make_store(alloc, asked, store).number()
}

/// Carries one command packet of any bytes out. The packet that answers it goes into the front of
/// the buffer, and its length in bytes into `reply_len`.
///
/// Refused in this order: an empty handle, a buffer of less than 8 bytes, lack of memory.
/// Then no command is carried out, and nothing is written.
#[unsafe(no_mangle)]
pub extern "C" fn ng_store_command(
    alloc: Global,
    store: &mut Handle,
    packet: &[u8],
    reply: &mut [u8],
    reply_len: &mut usize,
) -> u32
    ensures { (status : StatusOf) × (result ≡ number_of status)
        × CarriesCommand store.old.held store.new.held packet.now
        (record { buffer = reply.old; len = reply_len.old })
        (record { buffer = reply.new; len = reply_len.new }) status }
{
    carry_packet(alloc, store, packet, reply, reply_len).number()
}

/// Gives a store up. The handle is empty then; one that is empty already stays so.
#[unsafe(no_mangle)]
pub extern "C" fn ng_store_free(alloc: Global, store: &mut Handle) -> u32
    ensures { (status : StatusOf) × (result ≡ number_of status)
        × Frees store.old.held store.new.held status }
{
    store.free(alloc).number()
}
