//! What is kept of one DAQ list at a ring: its stops, and its samples written and unsent.
ghost use Rattle.std.specs.Prelude.{◌≡◌};
ghost use Rattle.slave_outbox.specs.IntakeInner.{lets_pass, marked, started, stopped, threw, wrote};

/// What an intake keeps of one DAQ list.
#[derive(Clone, Copy)]
pub struct ListIntake {
    /// The list runs, as the slave ordered it.
    pub runs: bool,
    /// Its stops that were ordered.
    pub stops: u64,
    /// Its stop markers that were taken.
    pub marks: u64,
    /// Its samples that were laid out.
    pub written: u64,
    /// Those of them that were thrown away before they were sent.
    pub unsent: u64,
}

/// What is kept of a list of which nothing was ordered or taken.
pub const FIRST: ListIntake = ListIntake {
    runs: false,
    stops: 0,
    marks: 0,
    written: 0,
    unsent: 0,
};

impl ListIntake {
    /// A sample of the list that is taken now is laid out: the list runs, and the marker of each
    /// stop came.
    pub fn passes(self) -> bool
        ensures { result ≡ lets_pass self }
    {
        self.runs && !(self.marks < self.stops)
    }

    /// The same, started.
    pub fn started(self) -> ListIntake
        ensures { result ≡ started self }
    {
        ListIntake { runs: true, ..self }
    }

    /// The same, stopped once more.
    pub fn stopped(self) -> ListIntake
        ensures { result ≡ stopped self }
    {
        ListIntake {
            runs: false,
            stops: self.stops.saturating_add(1),
            ..self
        }
    }

    /// The same behind one more stop marker.
    pub fn marked(self) -> ListIntake
        ensures { result ≡ marked self }
    {
        ListIntake {
            marks: self.marks.saturating_add(1),
            ..self
        }
    }

    /// The same behind one more sample that was laid out.
    pub fn wrote(self) -> ListIntake
        ensures { result ≡ wrote self }
    {
        ListIntake {
            written: self.written.saturating_add(1),
            ..self
        }
    }

    /// The same where one of its samples that were laid out was thrown away.
    pub fn threw(self) -> ListIntake
        ensures { result ≡ threw self }
    {
        ListIntake {
            unsent: self.unsent.saturating_add(1),
            ..self
        }
    }
}
