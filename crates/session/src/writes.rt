//! WRITE_DAQ_MULTIPLE.
ghost use Rattle.std.specs.Prelude.{◌≡◌, ◌≤◌, ◌*◌, length};
ghost use Rattle.daq_store.specs.Replies.{CarriesOut};
ghost use Rattle.session.specs.Requests.{write_of, writes};
ghost use Rattle.session.specs.Replies.{is_error};
ghost use Rattle.session.specs.Standing.{WritesAll, WritesOne};

use crate::cto::Cto;
use crate::session::Session;
use daq_store::command::{self, Command};
use daq_store::{Reply, Store};

impl Session {
    /// WRITE_DAQ_MULTIPLE: writes entries in their order, up to the first that is refused.
    pub(crate) fn write_multiple(&mut self, count: u8, entries: &[u8]) -> Cto
        requires { 8 * count ≤ length entries.now }
        ensures reply { WritesAll self.old self.new
            (writes count entries.now) result }
        ensures profile_stays { self.new.profile ≡ self.old.profile }
        ensures few { length result ≤ 8 }
    {
        let mut left = entries;
        for i in 0..count {
            let (entry, rest) = left.split_at(8);
            let fields = fields_of(entry);
            let reply = self.write_entry(fields.0, fields.1, fields.2, fields.3);
            if is_error(reply) {
                return Cto::of_store(reply);
            }
            left = rest;
        }
        Cto::positive(&[])
    }

    /// Writes one entry, as WRITE_DAQ does.
    fn write_entry(&mut self, bit: u8, size: u8, ext: u8, addr: u32) -> Reply
        ensures reply { WritesOne self.old self.new
            (Command.WriteDaq bit size ext addr) result }
        ensures profile_stays { self.new.profile ≡ self.old.profile }
    {
        write(&mut self.store, bit, size, ext, addr)
    }
}

/// WRITE_DAQ, which allocates nothing.
fn write(store: &mut Store, bit: u8, size: u8, ext: u8, addr: u32) -> Reply
    ensures reply { CarriesOut store.old store.new (Command.WriteDaq bit size ext addr) result }
    ensures profile_stays { store.new.profile ≡ store.old.profile }
{
    let Ok(reply) = command::carry_out(
        store,
        Command::WriteDaq {
            bit,
            size,
            ext,
            addr,
        },
    ) else {
        unreachable!()
    };
    reply
}

/// Whether a reply is no plain RES.
fn is_error(reply: Reply) -> bool
    ensures { result ≡ is_error reply }
{
    !matches!(reply, Reply::Positive)
}

/// The fields of an entry of WRITE_DAQ_MULTIPLE: bit offset, size, address extension and address.
fn fields_of(entry: &[u8]) -> (u8, u8, u8, u32)
    requires { length entry.now ≡ 8 }
    ensures { write_of entry.now
        ≡ Command.WriteDaq result.0 result.1 result.2 result.3 }
{
    match entry {
        [bit, size, a, b, c, d, ext, ..] => {
            let addr = u32::from_le_bytes([*a, *b, *c, *d]);
            (*bit, *size, *ext, addr)
        }
        _ => unreachable!(),
    }
}
