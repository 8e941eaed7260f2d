//! What waits is thrown away.
ghost use Rattle.std.specs.Prelude.{◌≡◌, ℕ, [], List};
ghost use Rattle.slave_outbox.specs.Outboxes.{Laid, StandsAfter};

use crate::outbox::{NONE_SHOWN, Outbox};

impl Outbox {
    /// Throws away what waits: it is never sent. The next frame has the CTR behind that of the last
    /// frame that was sent.
    pub fn discard(&mut self)
        ensures stands { (page : ℕ) (sent waits : List Laid)
            → StandsAfter self.old page sent waits → StandsAfter self.new page sent [] }
        ensures none { self.new.waits ≡ [] }
        ensures none_shown { self.new.shown ≡ 0 }
    {
        self.page.discard();
        self.len = 0;
        // for the proof: nothing is shown
        self.log.show(&[]);
        self.shown = NONE_SHOWN;
    }
}
