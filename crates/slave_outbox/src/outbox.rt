//! What waits to be sent: frames are laid out, shown to the transport, and let go once sent.
ghost use Rattle.std.specs.Prelude.{◌≡◌, ◌+◌, ◌%◌, ◌≤◌, true, false, length, take};
ghost use Rattle.frame_page.specs.Laid.{behind, blocks_of};
ghost use Rattle.frame_page.specs.Laid.{packets_in as packets_kept};
ghost use Rattle.frame_writer.specs.Frame.{unnumbered};
ghost use Rattle.slave_outbox.specs.Inner.{replies_kept};

use crate::limits::{MAX_REPLIES, page_blocks, page_places};
use crate::origin::Origin;
use crate::sent_log::SentLog;
use frame_page::FramePage;
use frame_ring::Front;
use std::alloc::{AllocError, Global};
use std::marker::Model;

/// What a slave has laid out and its transport has not taken yet, frame by frame.
///
/// Contracts speak of the packets that were laid out: those that were sent, and those that wait.
#[derive(Drop)]
pub struct Outbox {
    pub(crate) page: FramePage<Origin>,
    // Samples are laid out up to so many bytes.
    pub(crate) most: usize,
    // The most that this ever was: the page has memory for it.
    pub(crate) room: usize,
    // The bytes that wait.
    pub(crate) len: usize,
    pub(crate) shown: Front,
    // contracts alone see it: it has no bytes
    pub(crate) log: SentLog,
}

impl Model for Outbox {
    ghost use Rattle.slave_outbox.specs.Inner.{IsOutbox, laid_of};
    ghost use Rattle.slave_outbox.specs.Outboxes.{OutboxState};

    ghost Value = { OutboxState };

    ghost view = { λ o. record {
      sent = o.log.sent;
      counter = o.page.counter;
      waits = laid_of o.page.waits;
      shown = o.shown.count;
      page = o.most;
    } };

    ghost invariant = { λ o. IsOutbox o.most o.room o.page o.len o.shown o.log.shown };
}

/// What is shown where no peek was.
pub(crate) const NONE_SHOWN: Front = Front { count: 0, len: 0 };

/// One, if it is so.
fn one_if(is: bool) -> usize
    ensures yes { is ≡ true → result ≡ 1 }
    ensures no { is ≡ false → result ≡ 0 }
    ensures limit { result ≤ 1 }
{
    if is { 1 } else { 0 }
}

/// How many of those that wait in a page are replies.
fn replies_in(page: &FramePage<Origin>) -> usize
    ensures { result ≡ replies_kept page.now.waits }
{
    let mut count = 0;
    for i in 0..page.len() {
        count += one_if(page.origin(i).is_reply());
    }
    count
}

/// The frames that were shown were sent, and wait no more in a page that has so many bytes of them.
fn let_go(page: &mut FramePage<Origin>, shown: Front, len: usize)
    requires there { shown.count ≤ length (packets_kept page.old.waits) }
    requires front { shown.len
        ≡ length (unnumbered (take shown.count (packets_kept page.old.waits))) }
    requires long { len ≡ length (unnumbered (packets_kept page.old.waits)) }
    ensures { page.new ≡ record page.old {
      waits = behind shown.count page.old.waits;
      counter = (page.old.counter + shown.count) % 65536;
      used = blocks_of (behind shown.count page.old.waits);
    } }
{
    if shown.len == len {
        page.sent_all(shown.count);
        return;
    }
    page.sent(shown.count);
}

impl Outbox {
    ghost use Rattle.std.specs.Prelude.{◌≡◌, ℕ, ◌<◌, ◌≤◌, ◌++◌, [], ◌∷◌, List, true, false};
    ghost use Rattle.std.specs.Prelude.{IfOk, OnErr, OnOk, Some, not, drop, length, slice_get};
    ghost use Rattle.std.specs.Prelude.{take};
    ghost use Rattle.frame_writer.specs.Frame.{text};
    ghost use Rattle.xcp_base.specs.declared.limits.TheConstants.{MAX_CTO};
    ghost use Rattle.slave_outbox.specs.Outboxes.{Laid, LaysOut, Shows, StandsAfter, bytes_in};
    ghost use Rattle.slave_outbox.specs.Outboxes.{has_room, has_waiting, origins_in, packets_in};
    ghost use Rattle.slave_outbox.specs.Outboxes.{replies_in, together};
    ghost use Rattle.slave_outbox.specs.declared.limits.TheConstants.{MAX_PAGE, MAX_REPLIES};

    /// An outbox in which nothing waits, with room for replies alone. Its first frame has CTR 0.
    pub fn new(alloc: Global) -> Result<Outbox, AllocError>
        ensures stands { IfOk result (λ o. StandsAfter o 0 [] []) }
        ensures none_shown { IfOk result (λ o. o.shown ≡ 0) }
    {
        Ok(Outbox {
            page: FramePage::new(alloc, page_blocks(0), page_places(0))?,
            most: 0,
            room: 0,
            len: 0,
            shown: NONE_SHOWN,
            log: SentLog::new(),
        })
    }

    /// From now on samples are laid out up to so many bytes. What waits stays, also if it has more.
    /// Memory is taken for a page that is longer than each before; if there is none, nothing
    /// changes.
    pub fn set_page(&mut self, alloc: Global, page: usize) -> Result<(), AllocError>
        requires limit { page ≤ MAX_PAGE }
        ensures ok { OnOk result (self.new ≡ record self.old { page = page }) }
        ensures err { OnErr result (self.new ≡ self.old) }
    {
        let room = self.room.max(page);
        self.page.grow(alloc, page_blocks(room), page_places(room))?;
        self.room = room;
        self.most = page;
        Ok(())
    }

    /// Whether one more reply finds room: fewer than `MAX_REPLIES` wait.
    pub fn has_room(&self) -> bool
        ensures { result ≡ has_room self.now }
    {
        replies_in(&self.page) < MAX_REPLIES
    }

    /// Lays a reply out behind all that waits, if it finds room, and returns whether it does.
    pub fn reply(&mut self, packet: &[u8]) -> bool
        requires not_empty { 0 < length packet.now }
        requires fits { length packet.now ≤ MAX_CTO }
        ensures room { result ≡ has_room self.old }
        ensures lays_out { result ≡ true → LaysOut self.old self.new
            (together Origin.Reply (packet.now ∷ [])) }
        ensures stays { result ≡ false → self.new ≡ self.old }
        ensures shown_stays { self.new.shown ≡ self.old.shown }
    {
        if !self.has_room() {
            return false;
        }
        self.lay(packet);
        true
    }

    /// Lays a reply out behind all that waits.
    fn lay(&mut self, packet: &[u8])
        requires not_empty { 0 < length packet.now }
        requires fits { length packet.now ≤ MAX_CTO }
        requires few { replies_in self.old.waits < MAX_REPLIES }
        ensures lays_out { LaysOut self.old self.new (together Origin.Reply (packet.now ∷ [])) }
    {
        self.page.put_reply(packet, Origin::Reply);
        self.len += 4 + packet.len();
    }

    /// Copies as many whole frames as find room to the front of a buffer, in the order in which
    /// they were laid out, and returns how many bytes these are. They still wait: the next peek
    /// begins with the same, unless `sent` comes between. A sample may so go out in several
    /// datagrams.
    pub fn peek(&mut self, buffer: &mut [u8]) -> usize
        ensures shows { Shows self.old (length buffer.old) self.new.shown result }
        ensures bytes { take result buffer.new
            ≡ text self.old.counter (packets_in (take self.new.shown self.old.waits)) }
        ensures behind { drop result buffer.new ≡ drop result buffer.old }
        ensures rest_stays { self.new ≡ record self.old { shown = self.new.shown } }
    {
        let front = self.page.peek(buffer);
        // for the proof: clauses speak of the bytes that are sent
        self.log.show(&buffer[..front.len]);
        self.shown = front;
        front.len
    }

    /// The frames that the last peek showed were sent, and wait no more.
    pub fn sent(&mut self)
        ensures stands { (page : ℕ) (sent waits : List Laid) → StandsAfter self.old page sent waits
            → StandsAfter self.new page (sent ++ take self.old.shown waits)
            (drop self.old.shown waits) }
        ensures none_shown { self.new.shown ≡ 0 }
    {
        let_go(&mut self.page, self.shown, self.len);
        self.len -= self.shown.len;
        // for the proof, as above
        self.log.sent(&[]);
        self.shown = NONE_SHOWN;
    }

    /// How many replies and samples wait, as a whole or in part.
    pub fn len(&self) -> usize
        ensures { result ≡ length (origins_in self.now.waits) }
    {
        self.page.len()
    }

    /// How many bytes wait.
    pub fn waiting(&self) -> usize
        ensures { result ≡ bytes_in self.now.waits }
    {
        self.len
    }

    /// Whether nothing waits.
    pub fn is_empty(&self) -> bool
        ensures waiting { result ≡ not (has_waiting self.now) }
        ensures none { result ≡ true → self.now.waits ≡ [] }
        ensures none_shown { result ≡ true → self.now.shown ≡ 0 }
    {
        self.page.len() == 0
    }

    /// Where the reply or the sample is from that waits at place `i`, of the oldest first.
    pub fn origin(&self, i: usize) -> Origin
        requires place { i < length (origins_in self.now.waits) }
        ensures { slice_get (origins_in self.now.waits) i ≡ Some result }
    {
        self.page.origin(i)
    }
}
