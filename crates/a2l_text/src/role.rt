//! Which blocks are read and which are passed over, by their names and where they stand.
ghost use Rattle.std.specs.Prelude.{◌≡◌};
ghost use Rattle.a2l_text.specs.Roles.{inside, inside_part, module_block, xcp_block, plus_block};
ghost use Rattle.a2l_text.specs.Roles.{after_plain, after_text, may_include, part_of};

use crate::part::Part;
use crate::{is, meaning};

/// What an open block is to the reader: whether it is a part (`Part`), may have parts in it, or is
/// passed over. It follows from the block's name and the role of the block around it. In
///
/// ```text
/// /begin PROJECT engine ""
///   /begin MODULE engine ""
///     /begin IF_DATA XCP
///       /begin DAQ STATIC 1 2 0 /begin DAQ_LIST 0 /end DAQ_LIST /end DAQ
///     /end IF_DATA
///   /end MODULE
/// /end PROJECT
/// ```
///
/// PROJECT is `Project` and MODULE `Module`. IF_DATA is `IfData` up to its word `XCP`, and `Xcp`
/// from there on. DAQ in it is `Gathered(Part::Daq)`, and DAQ_LIST in that is `PassedOver`.
#[derive(Clone, Copy)]
pub enum Role {
    /// No block: the text itself.
    File,
    /// PROJECT, which isn't handed on, but the MODULEs in it are.
    Project,
    /// MODULE: a part in which others stand.
    Module,
    /// An IF_DATA whose first word isn't read yet: it says whose data these are.
    IfData,
    /// An IF_DATA of XCP, or a block in it that is no part.
    Xcp,
    /// An IF_DATA of XCPplus, or a block in it that is no part.
    XcpPlus,
    /// A part of this kind: the words directly in it are gathered, and are handed on with it.
    Gathered(Part),
    /// A block with options of the part that it stands in, as BIT_OPERATION in a MEASUREMENT: its
    /// name and its words are gathered with those of the part.
    Joined,
    /// A2ML, the grammar of IF_DATA, or a block in it: it is passed over, and may name other files
    /// to include.
    Grammar,
    /// It is passed over, with all that stands in it.
    PassedOver,
}

impl Role {
    /// The role of a block of this name in a block of this role.
    pub fn inside(self, name: &[u8]) -> Role
        ensures { result ≡ inside self name.now }
    {
        match self {
            Role::File if is(name, "PROJECT") => Role::Project,
            Role::Project if is(name, "MODULE") => Role::Module,
            Role::Module => module_block(name),
            Role::Xcp => xcp_block(name),
            Role::XcpPlus => plus_block(name),
            Role::Gathered(part) => inside_part(part, name),
            Role::Grammar => Role::Grammar,
            _ => Role::PassedOver,
        }
    }

    /// The role behind a plain word that stands directly in the block. It changes only behind the
    /// first word of an IF_DATA.
    pub fn after_plain(self, word: &[u8]) -> Role
        ensures { result ≡ after_plain self word.now }
    {
        match self {
            Role::IfData if is(word, "XCP") => Role::Xcp,
            Role::IfData if is(word, "XCPplus") => Role::XcpPlus,
            Role::IfData => Role::PassedOver,
            _ => self,
        }
    }

    /// The role behind a text that stands directly in the block.
    pub fn after_text(self) -> Role
        ensures { result ≡ after_text self }
    {
        match self {
            Role::IfData => Role::PassedOver,
            _ => self,
        }
    }

    /// Whether `/include` is passed over in the block.
    pub fn may_include(self) -> bool
        ensures { result ≡ may_include self }
    {
        matches!(self, Role::Grammar)
    }

    /// The kind of the block, if it is a part.
    pub fn part(self) -> Option<Part>
        ensures { result ≡ part_of self }
    {
        match self {
            Role::Module => Some(Part::Module),
            Role::Gathered(part) => Some(part),
            _ => None,
        }
    }
}

/// The role of a block of this name directly in a part.
fn inside_part(part: Part, name: &[u8]) -> Role
    ensures { result ≡ inside_part part name.now }
{
    match part {
        Part::Measurement if is(name, "BIT_OPERATION") => Role::Joined,
        Part::Daq | Part::PlusDaq if is(name, "TIMESTAMP_SUPPORTED") => Role::Joined,
        _ => Role::PassedOver,
    }
}

/// The role of a block of this name directly in a MODULE.
fn module_block(name: &[u8]) -> Role
    ensures { result ≡ module_block name.now }
{
    meaning(name, &MODULE_BLOCKS).unwrap_or(Role::PassedOver)
}

/// The blocks directly in a MODULE that aren't passed over.
const MODULE_BLOCKS: [(&str, Role); 8] = [
    ("MEASUREMENT", Role::Gathered(Part::Measurement)),
    ("INSTANCE", Role::Gathered(Part::Instance)),
    ("COMPU_METHOD", Role::Gathered(Part::Method)),
    ("COMPU_VTAB", Role::Gathered(Part::Table)),
    ("COMPU_VTAB_RANGE", Role::Gathered(Part::Ranges)),
    ("MOD_COMMON", Role::Gathered(Part::Defaults)),
    ("IF_DATA", Role::IfData),
    ("A2ML", Role::Grammar),
];

/// The role of a block of this name in an IF_DATA of XCP.
fn xcp_block(name: &[u8]) -> Role
    ensures { result ≡ xcp_block name.now }
{
    meaning(name, &XCP_BLOCKS).unwrap_or(Role::Xcp)
}

/// The blocks in an IF_DATA of XCP that are parts.
const XCP_BLOCKS: [(&str, Role); 3] = [
    ("PROTOCOL_LAYER", Role::Gathered(Part::Protocol)),
    ("DAQ", Role::Gathered(Part::Daq)),
    ("TIMESTAMP_SUPPORTED", Role::Gathered(Part::Timestamp)),
];

/// The role of a block of this name in an IF_DATA of XCPplus.
fn plus_block(name: &[u8]) -> Role
    ensures { result ≡ plus_block name.now }
{
    meaning(name, &PLUS_BLOCKS).unwrap_or(Role::XcpPlus)
}

/// The blocks in an IF_DATA of XCPplus that are parts.
const PLUS_BLOCKS: [(&str, Role); 2] = [
    ("PROTOCOL_LAYER", Role::Gathered(Part::Protocol)),
    ("DAQ", Role::Gathered(Part::PlusDaq)),
];
