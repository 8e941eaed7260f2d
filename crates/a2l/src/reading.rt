//! An A2L file is read block by block, and a fault gets its line and its column.
ghost use Rattle.std.specs.Prelude.{◌≡◌, ◌≤◌, false, length, IfOk, IfErr, IsSome, OnOk, ◌<◌};
ghost use Rattle.a2l_text.specs.Steps.{NextIs, cleared};
ghost use Rattle.a2l_text.specs.States.{state_of};
ghost use Rattle.a2l_text.specs.Trees.{Elements};
ghost use Rattle.a2l_text.specs.State.{rest_of};
ghost use Rattle.a2l.specs.ModuleSaid.{no_parts};
ghost use Rattle.a2l.specs.Drafts.{draft_seen};
ghost use Rattle.a2l_entries.specs.Said.{tokens_of};
ghost use Rattle.a2l.specs.Described.{description_seen, description_of, nothing, after_part};
ghost use Rattle.a2l.specs.Whole.{Describes, DescribesNothing, IsTextOf, UnlessOut};
ghost use Rattle.a2l.specs.Whole.{IsAllOf, MakesNone, HasNoPart, Takes, is_memory, is_out};

use crate::description::Description;
use crate::draft::Draft;
use crate::fault::{A2lFault, Reason};
use a2l_entries::{Awaited, EntryFault, Left, Refused};
use a2l_text::{BlockFault, Blocks, Part, WordFault, place_of};
use std::alloc::Global;

/// How long a text may be, in bytes: 64 MiB.
pub const MAX_TEXT: usize = 67_108_864;

impl Description {
    /// What a text says of what can be measured (ASAM MCD-2 MC, the description file).
    ///
    /// Names and texts are UTF-8, or else ISO 8859-1. Of two methods or tables of one name in a
    /// MODULE a reference means the first; of two options of one kind in a block the first counts.
    /// A measurement is checked like the others, and only its name is kept, in `left_out`, if it
    /// has no address, or an extension other than 0, or if it is an array of no or of more than
    /// 65,536 elements, or in an order that isn't known.
    ///
    /// A table that several methods name is copied for each of them. Copies of more than 256 MiB in
    /// all count as a lack of memory.
    ///
    /// Refused if the text is longer than `MAX_TEXT`, if something in it is wrong, or without
    /// memory. A fault has a line and a column; no clause says that they are right, or that it is
    /// the first.
    pub fn read(alloc: Global, text: &[u8]) -> Result<Description, A2lFault>
        // The text is the printing of elements, and this is what they describe.
        ensures found { IfOk result (λ d. Describes text.now (description_seen d)) }
        // No elements of the text describe anything else.
        ensures only { IfOk result (λ d. (elements : Elements) → IsTextOf text.now elements
            → description_of elements ≡ Some (description_seen d)) }
        // What is refused describes nothing, unless memory ran out.
        ensures refused { IfErr result (λ fault. length text.now ≤ MAX_TEXT
            → UnlessOut fault (DescribesNothing text.now)) }
    {
        if text.len() > MAX_TEXT {
            return Err(fault_at(text, 0, Reason::Refused(Refused::TooLarge)));
        }
        let mut blocks = Blocks::new(alloc, text);
        match read_all(alloc, &mut blocks) {
            Ok(draft) => {
                let Draft {
                    description,
                    parts,
                    ..
                } = draft;
                drop(parts);
                Ok(description)
            }
            Err(fault) => Err(fault_of(text, blocks.start(), fault)),
        }
    }
}

/// Why the parts of a text can't be read.
#[derive(Drop)]
pub enum ReadFault {
    /// There is no next part.
    Block(BlockFault),
    /// The words of a part can't be read.
    Entry(EntryFault),
}

/// What all parts say.
fn read_all(alloc: Global, blocks: &mut Blocks<'_>) -> Result<Draft, ReadFault>
    ensures ok { IfOk result
        (λ draft. IsAllOf (state_of blocks.old) (no_parts, nothing) (draft_seen draft)) }
    ensures err { IfErr result
        (λ fault. MakesNone fault (state_of blocks.old) (no_parts, nothing)) }
{
    let mut draft = Draft::new(alloc);
    take_all(alloc, blocks, &mut draft)?;
    Ok(draft)
}

/// Adds what the parts say, up to the end of the text.
fn take_all(alloc: Global, blocks: &mut Blocks<'_>, draft: &mut Draft) -> Result<(), ReadFault>
    ensures ok { OnOk result
        (IsAllOf (state_of blocks.old) (draft_seen draft.old) (draft_seen draft.new)) }
    ensures err { IfErr result
        (λ fault. MakesNone fault (state_of blocks.old) (draft_seen draft.old)) }
{
    while let Some(part) = next_part(blocks)? {
        let words = Left {
            words: blocks.words(),
            end: blocks.end_of_part(),
        };
        take(draft, alloc, part, words)?;
    }
    Ok(())
}

/// The next part.
fn next_part(blocks: &mut Blocks<'_>) -> Result<Option<Part>, ReadFault>
    ensures ok { IfOk result
        (λ part. NextIs part (cleared (state_of blocks.old)) (state_of blocks.new)) }
    ensures shorter { IfOk result (λ part. IsSome part
        → length (rest_of blocks.new.words) < length (rest_of blocks.old.words)) }
    ensures err { IfErr result (λ fault. HasNoPart fault (state_of blocks.old)) }
{
    match blocks.next_part() {
        Ok(part) => Ok(part),
        Err(fault) => Err(ReadFault::Block(fault)),
    }
}

/// Adds what a part says.
fn take(draft: &mut Draft, alloc: Global, part: Part, words: Left<'_, '_>) -> Result<(), ReadFault>
    ensures { Takes result
        (after_part part (tokens_of words.entry) (draft_seen draft.old)) (draft_seen draft.new) }
{
    match draft.take(alloc, part, words) {
        Ok(()) => Ok(()),
        Err(fault) => Err(ReadFault::Entry(fault)),
    }
}

/// The fault of a text, with its line and column; `at` is the offset of its newest word.
fn fault_of(text: &[u8], at: usize, fault: ReadFault) -> A2lFault
    ensures { is_out result ≡ is_memory fault }
{
    match fault {
        ReadFault::Block(fault) => block_fault(text, at, fault),
        ReadFault::Entry(fault) => entry_fault(text, fault),
    }
}

fn fault_at(text: &[u8], at: usize, reason: Reason) -> A2lFault
    ensures { is_out result ≡ false }
{
    A2lFault::At {
        place: place_of(text, at),
        reason,
    }
}

fn entry_fault(text: &[u8], fault: EntryFault) -> A2lFault
    ensures { is_out result ≡ is_memory (ReadFault.Entry fault) }
{
    match fault {
        EntryFault::Memory => A2lFault::Memory,
        EntryFault::Awaited(at, awaited) => fault_at(text, at, Reason::Awaited(awaited)),
        EntryFault::Refused(at, refused) => fault_at(text, at, Reason::Refused(refused)),
    }
}

fn block_fault(text: &[u8], at: usize, fault: BlockFault) -> A2lFault
    ensures { is_out result ≡ is_memory (ReadFault.Block fault) }
{
    match fault {
        BlockFault::Memory => A2lFault::Memory,
        BlockFault::Words(fault) => fault_at(text, at, Reason::Refused(word_refusal(fault))),
        BlockFault::Include => fault_at(text, at, Reason::Refused(Refused::Include)),
        BlockFault::TooDeep => fault_at(text, at, Reason::Refused(Refused::TooDeep)),
        BlockFault::Name => fault_at(text, at, Reason::Awaited(Awaited::BlockName)),
        BlockFault::End(name) => fault_at(text, at, Reason::AwaitedEnd(name)),
        BlockFault::Stray => fault_at(text, at, Reason::Refused(Refused::StrayEnd)),
    }
}

fn word_refusal(fault: WordFault) -> Refused {
    match fault {
        WordFault::OpenText => Refused::OpenText,
        WordFault::OpenComment => Refused::OpenComment,
    }
}
