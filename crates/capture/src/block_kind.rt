//! What kind a block of pcapng is.

/// What kind a block of pcapng is.
#[derive(Clone, Copy)]
pub enum BlockKind {
    /// A section begins.
    SectionHeader,
    /// An interface of this section.
    InterfaceDescription,
    /// A packet of the first interface, without a time.
    SimplePacket,
    /// A packet of any interface, with its time.
    EnhancedPacket,
    /// One that holds no packet.
    Other,
}
