//! An A2L text is read part by part; blocks that are no parts are passed over.
ghost use Rattle.std.specs.Prelude.{◌≡◌, bytes_eq, ◌<◌, ◌≤◌, [], length, map, option_copied};
ghost use Rattle.std.specs.Prelude.{IfOk, OnOk, IfErr, IsSome};
ghost use Rattle.a2l_text.specs.Words.{without_mark};
ghost use Rattle.a2l_text.specs.TokenOf.{token_of};
ghost use Rattle.a2l_text.specs.Tokens.{begin, end, include};
ghost use Rattle.a2l_text.specs.State.{rest_of};
ghost use Rattle.a2l_text.specs.Ahead.{gathered_at_begin, gathered_with};
ghost use Rattle.a2l_text.specs.Steps.{WordIs, NameIs, HasNoWords, HasNoName, plain_bytes};
ghost use Rattle.a2l_text.specs.Steps.{token_at, Reaches, StepIs, StopsAt, NextIs, coming};
ghost use Rattle.a2l_text.specs.Steps.{coming_behind, cleared};
ghost use Rattle.a2l_text.specs.States.{state_of};
ghost use Rattle.a2l_text.specs.declared.role.Role.TheVariants.{File};

use crate::block_fault::BlockFault;
use crate::located::Located;
use crate::part::Part;
use crate::role::Role;
use crate::{Word, Words, text_of};
use std::alloc::{AllocError, Global};

/// How many blocks may stand in one another.
pub const MAX_DEPTH: usize = 64;

/// A block that isn't ended: its name, and the role of what it stands in.
#[derive(Clone, Copy)]
pub struct OpenBlock<'a> {
    pub name: &'a [u8],
    pub outer: Role,
}

/// Hands on the parts of a text, one after another: `Part` says which blocks these are. Every other
/// block is passed over by its `/begin` and `/end`, but for one that has options of a part.
#[derive(Drop)]
pub struct Blocks<'a> {
    words: Words<'a>,
    alloc: Global,
    role: Role,
    around: Vec<OpenBlock<'a>>,
    gathered: Vec<Located<'a>>,
    /// The offset of the newest `/end`.
    end: usize,
}

impl<'a> Blocks<'a> {
    /// Before the first block of a text.
    pub fn new(alloc: Global, text: &'a [u8]) -> Blocks<'a>
        ensures { state_of result
            ≡ record { role = File; around = []; gathered = []; ahead = without_mark text.now } }
    {
        Blocks {
            words: Words::new(text),
            alloc,
            role: Role::File,
            around: Vec::new(alloc),
            gathered: Vec::new(alloc),
            end: 0,
        }
    }

    /// Reads up to the end of the next part. `None`: the text has no more, and all of its blocks
    /// are ended.
    ///
    /// After a fault it isn't to be asked again: no clause says what it answers then.
    pub fn next_part(&mut self) -> Result<Option<Part>, BlockFault>
        ensures ok { IfOk result
            (λ part. NextIs part (cleared (state_of self.old)) (state_of self.new)) }
        ensures shorter { IfOk result (λ part. IsSome part
            → length (rest_of self.new.words) < length (rest_of self.old.words)) }
        ensures err { IfErr result
            (λ fault. StopsAt fault (rest_of self.old.words) (coming (cleared
            (state_of self.old)))) }
    {
        self.gathered.clear();
        while let Some(word) = next_word(&mut self.words)? {
            if let Some(part) = self.step(word)? {
                return Ok(Some(part));
            }
        }
        match self.around.last() {
            None => Ok(None),
            Some(block) => Err(awaits_end(self.alloc, block.name)),
        }
    }

    /// The words that stand directly in the part that was read last, in their order, and behind its
    /// name those of each block that has options of it.
    pub fn words(&self) -> &[Located<'a>]
        ensures { map token_at result.now ≡ (state_of self.now).gathered }
    {
        self.gathered.as_slice()
    }

    /// The offset of the `/end` of the part that was read last, in bytes.
    pub fn end_of_part(&self) -> usize {
        self.end
    }

    /// The offset of the newest word, in bytes. Behind a fault it is where the fault lies.
    pub fn start(&self) -> usize {
        self.words.start()
    }

    /// Takes the word that was read last, and returns the part that it ends, if it does.
    fn step(&mut self, word: Word<'a>) -> Result<Option<Part>, BlockFault>
        ensures ok { IfOk result (λ part. StepIs part (rest_of self.old.words)
            (coming_behind (token_of word.entry) (state_of self.old)) (state_of self.new)) }
        ensures no_longer { OnOk result
            (length (rest_of self.new.words) ≤ length (rest_of self.old.words)) }
        ensures err { IfErr result (λ fault. StopsAt fault (rest_of self.old.words)
            (coming_behind (token_of word.entry) (state_of self.old))) }
    {
        let at = self.words.start();
        match word {
            Word::Begin => {
                self.begin()?;
                Ok(None)
            }
            Word::End => self.end(),
            Word::Include => self.include(),
            Word::Plain(bytes) => {
                gather(self.role, &mut self.gathered, Located { word, at })?;
                self.role = self.role.after_plain(bytes);
                Ok(None)
            }
            Word::Quoted(_) => {
                gather(self.role, &mut self.gathered, Located { word, at })?;
                self.role = self.role.after_text();
                Ok(None)
            }
        }
    }

    /// Passes over the `/include` that was read last, if it may stand there.
    fn include(&mut self) -> Result<Option<Part>, BlockFault>
        ensures ok { IfOk result (λ part. StepIs part (rest_of self.old.words)
            (coming_behind include (state_of self.old)) (state_of self.new)) }
        ensures no_longer { OnOk result
            (length (rest_of self.new.words) ≤ length (rest_of self.old.words)) }
        ensures err { IfErr result (λ fault. StopsAt fault (rest_of self.old.words)
            (coming_behind include (state_of self.old))) }
    {
        if self.role.may_include() {
            return Ok(None);
        }
        Err(BlockFault::Include)
    }

    /// Opens the block whose `/begin` is the word that was read last.
    fn begin(&mut self) -> Result<(), BlockFault>
        ensures ok { OnOk result (Reaches (rest_of self.old.words)
            (coming_behind begin (state_of self.old)) (state_of self.new)) }
        ensures no_longer { OnOk result
            (length (rest_of self.new.words) ≤ length (rest_of self.old.words)) }
        ensures err { IfErr result (λ fault. StopsAt fault (rest_of self.old.words)
            (coming_behind begin (state_of self.old))) }
    {
        let name = block_name(&mut self.words)?;
        if self.around.len() >= MAX_DEPTH {
            return Err(BlockFault::TooDeep);
        }
        let outer = self.role;
        self.around.push(OpenBlock { name, outer })?;
        self.role = outer.inside(name);
        gather_name(self.role, &mut self.gathered, name, self.words.start())?;
        Ok(())
    }

    /// Ends the innermost block, whose `/end` is the word that was read last.
    fn end(&mut self) -> Result<Option<Part>, BlockFault>
        ensures ok { IfOk result (λ part. StepIs part (rest_of self.old.words)
            (coming_behind end (state_of self.old)) (state_of self.new)) }
        ensures no_longer { OnOk result
            (length (rest_of self.new.words) ≤ length (rest_of self.old.words)) }
        ensures err { IfErr result (λ fault. StopsAt fault (rest_of self.old.words)
            (coming_behind end (state_of self.old))) }
    {
        self.end = self.words.start();
        let name = block_name(&mut self.words)?;
        match self.around.pop() {
            None => Err(BlockFault::Stray),
            Some(block) => {
                if !is_name_of(name, block) {
                    return Err(awaits_end(self.alloc, block.name));
                }
                let part = self.role.part();
                self.role = block.outer;
                Ok(part)
            }
        }
    }
}

/// Whether the name behind `/end` is that of the block.
fn is_name_of(name: &[u8], block: OpenBlock<'_>) -> bool
    ensures { result ≡ bytes_eq name.now block.entry.name.now }
{
    name == block.name
}

/// The next word.
fn next_word<'a>(words: &mut Words<'a>) -> Result<Option<Word<'a>>, BlockFault>
    ensures ok { IfOk result (λ found. WordIs found (rest_of words.old) (rest_of words.new)) }
    ensures err { IfErr result (λ fault. HasNoWords fault (rest_of words.old)) }
{
    match words.next_word() {
        Ok(word) => Ok(word),
        Err(fault) => Err(BlockFault::Words(fault)),
    }
}

/// The name behind `/begin` or `/end`.
fn block_name<'a>(words: &mut Words<'a>) -> Result<&'a [u8], BlockFault>
    ensures ok { IfOk result (λ name. NameIs name.now (rest_of words.old) (rest_of words.new)) }
    ensures err { IfErr result (λ fault. HasNoName fault (rest_of words.old)) }
{
    match next_word(words)? {
        None => Err(BlockFault::Name),
        Some(word) => match plain_bytes(word) {
            Some(name) => Ok(name),
            None => Err(BlockFault::Name),
        },
    }
}

/// The bytes of a word that is no text and none of `/begin`, `/end` and `/include`.
fn plain_bytes<'a>(word: Word<'a>) -> Option<&'a [u8]>
    ensures { option_copied result ≡ plain_bytes (token_of word.entry) }
{
    match word {
        Word::Plain(bytes) => Some(bytes),
        Word::Begin | Word::End | Word::Include | Word::Quoted(_) => None,
    }
}

/// Keeps a word, if its block is one whose words are gathered.
fn gather<'a>(
    role: Role,
    gathered: &mut Vec<Located<'a>>,
    word: Located<'a>,
) -> Result<(), AllocError>
    ensures { OnOk result (map token_at gathered.new.items
        ≡ gathered_with role (token_at word.entry) (map token_at gathered.old.items)) }
{
    match role {
        Role::Gathered(_) | Role::Joined => gathered.push(word)?,
        _ => {}
    }
    Ok(())
}

/// Keeps the name of a block, if it is one whose words are gathered with those around it.
fn gather_name<'a>(
    role: Role,
    gathered: &mut Vec<Located<'a>>,
    name: &'a [u8],
    at: usize,
) -> Result<(), AllocError>
    ensures { OnOk result (map token_at gathered.new.items
        ≡ gathered_at_begin role name.now (map token_at gathered.old.items)) }
{
    if let Role::Joined = role {
        let word = Word::Plain(name);
        gathered.push(Located { word, at })?;
    }
    Ok(())
}

/// What is answered where the block of this name isn't ended.
fn awaits_end(alloc: Global, name: &[u8]) -> BlockFault {
    match text_of(alloc, name) {
        Ok(name) => BlockFault::End(name),
        Err(_) => BlockFault::Memory,
    }
}
