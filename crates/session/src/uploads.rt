//! SET_MTA, UPLOAD, SHORT_UPLOAD and GET_ID: a text or memory is read without a DAQ list.
ghost use Rattle.std.specs.Prelude.{◌≡◌, ◌+◌, ◌≤◌, ℕ, List, [], drop, length};
ghost use Rattle.std.specs.Prelude.{◌<◌, Err, IfErr, IfOk, Ok, OnOk, false};
ghost use Rattle.session.specs.Fields.{packet_of};
ghost use Rattle.segments.specs.Memory.{parts};
ghost use Rattle.segments.specs.declared.limits.TheConstants.{ADDRESSES};
ghost use Rattle.session.specs.Past.{Text, none_given};
ghost use Rattle.session.specs.Replies.{id_fields, id_reply};
ghost use Rattle.session.specs.Sources.{is_bad_count, is_bad_number, memory_reply};
ghost use Rattle.session.specs.Sources.{source_after_memory};
ghost use Rattle.session.specs.Standing.{AnswersRequest, given_by, text_in};

use crate::cto::Cto;
use crate::request::Request;
use crate::session::Session;
use crate::source::{Source, TextOf};
use segments::ReadFault;
use xcp_base::ErrCode;

impl Session {
    /// GET_ID: the slave's name stands in the reply itself; of the types 1, 4 and 5 UPLOAD reads
    /// the text.
    pub(crate) fn id(&mut self, kind: u8) -> Cto
        ensures reply { AnswersRequest self.old self.new none_given [] (Request.GetId kind)
            result }
        ensures profile_stays { self.new.profile ≡ self.old.profile }
        ensures fits { length result ≤ self.old.profile.max_cto }
    {
        // for the proof: a reply of eight bytes fits
        self.max_cto();
        match kind {
            0 => self.name_reply(),
            1 => self.named(TextOf::A2lName),
            4 => self.named(TextOf::A2l),
            5 => self.named(TextOf::Epk),
            2..=3 => Cto::positive(&[0, 0, 0, 0, 0, 0, 0]),
            _ => Cto::error(ErrCode::OutOfRange),
        }
    }

    /// The reply with the slave's name.
    fn name_reply(&self) -> Cto
        ensures reply { result ≡ packet_of (id_reply self.now.profile 0) }
        ensures fits { length result ≤ self.now.profile.max_cto }
    {
        let name = self.profile.name.as_slice();
        let [a, b, c, d] = (name.len() as u32).to_le_bytes();
        Cto::with_text(&[1, 0, 0, a, b, c, d], name)
    }

    /// Names a text for UPLOAD: the reply has its length.
    fn named(&mut self, text: TextOf) -> Cto
        ensures reply { result
            ≡ packet_of (Ok (id_fields 0 (length (text_in self.old.profile text)) [])) }
        ensures source { self.new
            ≡ record self.old { source = Text (text_in self.old.profile text) } }
        ensures few { length result ≤ 8 }
    {
        let [a, b, c, d] = (self.profile.text(text).len() as u32).to_le_bytes();
        self.source = Source::Text { text, read: 0 };
        Cto::positive(&[0, 0, 0, a, b, c, d])
    }

    /// SET_MTA: UPLOAD reads memory from this address on, if it lies in a segment.
    pub(crate) fn set_mta(&mut self, extension: u8, address: u32) -> Cto
        ensures reply { AnswersRequest self.old self.new none_given []
            (Request.SetMta extension address) result }
        ensures profile_stays { self.new.profile ≡ self.old.profile }
        ensures few { length result ≤ 8 }
    {
        let address = address as usize;
        if self.store.segments().find(extension, address, 1).is_none() {
            return Cto::error(ErrCode::OutOfRange);
        }
        self.source = Source::Memory { extension, address };
        Cto::positive(&[])
    }

    /// UPLOAD: the next bytes of what was named.
    pub(crate) fn upload(&mut self, count: u8, memory: &[&[u8]]) -> Cto
        ensures reply { AnswersRequest self.old self.new (given_by 0 memory.now) []
            (Request.Upload count) result }
        ensures profile_stays { self.new.profile ≡ self.old.profile }
        ensures fits { length result ≤ self.old.profile.max_cto }
    {
        match self.source {
            Source::Nothing => Cto::error(ErrCode::Sequence),
            Source::Text { text, read } => self.upload_text(count, text, read),
            Source::Memory { extension, address } => {
                self.upload_memory(count, extension, address, memory)
            }
        }
    }

    /// The next bytes of a text, of which so many were read.
    fn upload_text(&mut self, count: u8, text: TextOf, read: usize) -> Cto
        requires { self.old.source ≡ Text (drop read (text_in self.old.profile text)) }
        ensures reply { AnswersRequest self.old self.new none_given [] (Request.Upload count)
            result }
        ensures profile_stays { self.new.profile ≡ self.old.profile }
        ensures fits { length result ≤ self.old.profile.max_cto }
    {
        let left = self.left_of(text, read);
        if is_bad_count(count, left, self.profile.max_cto) {
            return Cto::error(ErrCode::OutOfRange);
        }
        let reply = Cto::positive(&left[..count as usize]);
        self.source = Source::Text {
            text,
            read: read + count as usize,
        };
        reply
    }

    /// What is left of a text, of which so many bytes were read.
    fn left_of(&self, text: TextOf, read: usize) -> &[u8]
        ensures { result.now ≡ drop read (text_in self.now.profile text) }
    {
        match self.profile.text(text).get(read..) {
            Some(left) => left,
            None => &[],
        }
    }

    /// SHORT_UPLOAD: bytes of memory from an address on.
    pub(crate) fn short_upload(
        &mut self,
        count: u8,
        extension: u8,
        address: u32,
        memory: &[&[u8]],
    ) -> Cto
        ensures reply { AnswersRequest self.old self.new (given_by 0 memory.now) []
            (Request.ShortUpload count extension address) result }
        ensures profile_stays { self.new.profile ≡ self.old.profile }
        ensures fits { length result ≤ self.old.profile.max_cto }
    {
        self.upload_memory(count, extension, address as usize, memory)
    }

    /// Bytes of memory from an address on, behind which UPLOAD reads on.
    fn upload_memory(&mut self, count: u8, extension: u8, address: usize, memory: &[&[u8]]) -> Cto
        ensures reply { result ≡ packet_of
            (memory_reply self.old.profile (parts memory.now) count extension address) }
        ensures source { self.new ≡ record self.old {
          source =
              source_after_memory self.old.profile (parts memory.now) count extension address
              self.old.source;
        } }
        ensures fits { length result ≤ self.old.profile.max_cto }
    {
        match self.memory_reply(count, extension, address, memory) {
            Ok(reply) => {
                self.source = Source::Memory {
                    extension,
                    address: address + count as usize,
                };
                reply
            }
            Err(code) => Cto::error(code),
        }
    }

    /// The reply with bytes of memory from an address on.
    fn memory_reply(
        &self,
        count: u8,
        extension: u8,
        address: usize,
        memory: &[&[u8]],
    ) -> Result<Cto, ErrCode>
        ensures ok { IfOk result (λ reply. (bytes : List ℕ) × (reply ≡ packet_of (Ok bytes))
            × (memory_reply self.now.profile (parts memory.now) count extension address
            ≡ Ok bytes)) }
        ensures within { OnOk result (address + count ≤ ADDRESSES) }
        ensures err { IfErr result (λ code.
            memory_reply self.now.profile (parts memory.now) count extension address
            ≡ Err code) }
        ensures fits { IfOk result (λ reply. length reply ≤ self.now.profile.max_cto) }
    {
        if is_bad_number(count, self.profile.max_cto) {
            return Err(ErrCode::OutOfRange);
        }
        match self
            .store
            .segments()
            .read(memory, extension, address, count as usize)
        {
            Ok(bytes) => Ok(Cto::positive(bytes)),
            Err(ReadFault::OutOfRange) => Err(ErrCode::OutOfRange),
            Err(ReadFault::AccessDenied) => Err(ErrCode::AccessDenied),
        }
    }
}

/// Whether UPLOAD asks for no byte, or for more than a reply has.
fn is_bad_number(count: u8, max_cto: u8) -> bool
    ensures value { result ≡ is_bad_number max_cto count }
    ensures fits { result ≡ false → (count < max_cto) × (max_cto ≤ 255) }
{
    count == 0 || count >= max_cto
}

/// Whether it asks for no byte of a text, for more than a reply has, or for more than are left.
fn is_bad_count(count: u8, left: &[u8], max_cto: u8) -> bool
    ensures value { result ≡ is_bad_count max_cto count left.now }
    ensures fits { result ≡ false → (count < max_cto) × (max_cto ≤ 255) }
{
    is_bad_number(count, max_cto) || count as usize > left.len()
}
