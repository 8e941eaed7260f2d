//! What blocks of an A2L file tell of one property of a slave's packets, such as the byte order: a
//! number, nothing, or numbers that contradict one another.
ghost use Rattle.std.specs.Prelude.{◌≡◌};
ghost use Rattle.a2l_entries.specs.FormSaid.{number_told, told_and};

/// What a block, or several together, tell of one property of a slave's packets. The number is the
/// one that the slave itself answers for it (ASAM MCD-1 XCP, protocol layer); the fields of
/// `PacketForm` say what it means. For example, a PROTOCOL_LAYER with BYTE_ORDER_MSB_LAST tells
/// `Number(0)` of the byte order.
#[derive(Clone, Copy, Debug, PartialEq, Eq)]
pub enum Told {
    /// Nothing.
    Nothing,
    /// This number, and no other.
    Number(u16),
    /// Different numbers, or something that isn't known.
    Unclear,
}

impl Told {
    /// What two blocks tell together: the number that one of them tells, if the other tells the
    /// same or nothing.
    pub fn and(self, other: Told) -> Told
        ensures { result ≡ told_and self other }
    {
        match (self, other) {
            (Told::Nothing, _) => other,
            (Told::Number(_), Told::Nothing) => self,
            (Told::Number(one), Told::Number(two)) if one == two => self,
            _ => Told::Unclear,
        }
    }

    /// The number that is told, if one is.
    pub fn number(self) -> Option<u16>
        ensures { result ≡ number_told self }
    {
        match self {
            Told::Number(number) => Some(number),
            Told::Nothing | Told::Unclear => None,
        }
    }
}
