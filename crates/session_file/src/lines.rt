//! Reads the lines of a session's script from their texts.
ghost use Rattle.std.specs.Prelude.{◌≡◌, ◌⊎◌, ℕ, IfErr, IfOk, map, option_map};
ghost use Rattle.run_file.specs.Inner.{text_in};
ghost use Rattle.run_file.specs.Reading.{AreTextsOf, IsFirstBad};
ghost use Rattle.run_file.specs.StepOf.{words_of};
ghost use Rattle.session_file.specs.declared.file_fault.FileFault.TheVariants.{BadLine, Memory};
ghost use Rattle.session_file.specs.LineOf.{line_of, master_line, memory_line, one_word_line};
ghost use Rattle.session_file.specs.LineOf.{other_line, send_line, trigger_line, verb_line};
ghost use Rattle.session_file.specs.LineOf.{word_line};
ghost use Rattle.session_file.specs.Lines.{IsLineText};
ghost use Rattle.session_file.specs.Inner.{line_data};

use crate::file_fault::FileFault;
use crate::limits::ROOM;
use crate::line::Line;
use crate::words::slices_of;
use run_file::{cut, number_of, packet_of, text_in};
use std::alloc::{AllocError, Global};
use toml::Value;

/// The lines of some texts.
pub fn lines_of(alloc: Global, values: &[Value]) -> Result<Vec<Line>, FileFault>
    ensures ok { IfOk result (λ lines.
        AreTextsOf IsLineText (map text_in values.now) (map line_data lines.items)) }
    ensures err { IfErr result (λ e. (e ≡ Memory)
        ⊎ ((i : ℕ) × (e ≡ BadLine i) × IsFirstBad IsLineText (map text_in values.now) i)) }
{
    let Ok(mut lines) = Vec::with_capacity(alloc, values.len()) else {
        return Err(FileFault::Memory);
    };
    for value in values {
        let Ok(read) = line_of(alloc, text_in(value)) else {
            return Err(FileFault::Memory);
        };
        let Some(line) = read else {
            return Err(FileFault::BadLine(lines.len()));
        };
        let Ok(()) = lines.push(line) else {
            return Err(FileFault::Memory);
        };
    }
    Ok(lines)
}

/// The line of a text; none if it is none.
fn line_of(alloc: Global, text: &str) -> Result<Option<Line>, AllocError>
    ensures { IfOk result (λ line. option_map line_data line ≡ line_of text.now) }
{
    let Some((verb, rest)) = cut(text) else {
        return Ok(word_line(alloc, text));
    };
    verb_line(alloc, verb, rest)
}

/// The line of one word.
fn word_line(alloc: Global, verb: &str) -> Option<Line>
    ensures { option_map line_data result ≡ word_line verb.now }
{
    if verb == "send" {
        return Some(Line::Send);
    }
    if verb == "lose" {
        return Some(Line::Lose);
    }
    if verb == "hang_up" {
        return Some(Line::HangUp);
    }
    if verb == "master" {
        return Some(Line::Master(Vec::new(alloc)));
    }
    None
}

/// The line of a verb and of the words behind it.
fn verb_line(alloc: Global, verb: &str, rest: &str) -> Result<Option<Line>, AllocError>
    ensures { IfOk result (λ line.
        option_map line_data line ≡ verb_line verb.now (words_of rest.now)) }
{
    if verb == "memory" {
        return memory_line(alloc, rest);
    }
    other_line(alloc, verb, rest)
}

/// The line of the words of memory.
fn memory_line(alloc: Global, words: &str) -> Result<Option<Line>, AllocError>
    ensures { IfOk result (λ line. option_map line_data line ≡ memory_line (words_of words.now)) }
{
    match slices_of(alloc, words)? {
        Some(slices) => Ok(Some(Line::Memory(slices))),
        None => Ok(None),
    }
}

/// The line of a verb, which isn't `memory`, and of the words behind it.
fn other_line(alloc: Global, verb: &str, rest: &str) -> Result<Option<Line>, AllocError>
    ensures { IfOk result (λ line.
        option_map line_data line ≡ other_line verb.now (words_of rest.now)) }
{
    let Some((channel, rest)) = cut(rest) else {
        return one_word_line(alloc, verb, rest);
    };
    let Some((stamp, words)) = cut(rest) else {
        return Ok(None);
    };
    trigger_line(alloc, verb, channel, stamp, words)
}

/// The line of a verb and one word behind it.
fn one_word_line(alloc: Global, verb: &str, word: &str) -> Result<Option<Line>, AllocError>
    ensures { IfOk result (λ line. option_map line_data line ≡ one_word_line verb.now word.now) }
{
    if verb == "send" {
        return Ok(send_line(word));
    }
    master_line(alloc, verb, word)
}

/// The line of the digits of a room.
fn send_line(digits: &str) -> Option<Line>
    ensures { option_map line_data result ≡ send_line digits.now }
{
    let room = number_of(digits, ROOM as u32)?;
    Some(Line::SendIn(room as u16))
}

/// The line of a verb and the digits of a packet.
fn master_line(alloc: Global, verb: &str, digits: &str) -> Result<Option<Line>, AllocError>
    ensures { IfOk result (λ line. option_map line_data line ≡ master_line verb.now digits.now) }
{
    if verb != "master" || digits.is_empty() {
        return Ok(None);
    }
    match packet_of(alloc, digits)? {
        Some(packet) => Ok(Some(Line::Master(packet))),
        None => Ok(None),
    }
}

/// The line of a verb, an event channel, a timestamp and the words of memory.
fn trigger_line(
    alloc: Global,
    verb: &str,
    channel: &str,
    stamp: &str,
    words: &str,
) -> Result<Option<Line>, AllocError>
    ensures { IfOk result (λ line. option_map line_data line
        ≡ trigger_line verb.now channel.now stamp.now (words_of words.now)) }
{
    if verb != "trigger" {
        return Ok(None);
    }
    let Some(channel) = number_of(channel, 255) else {
        return Ok(None);
    };
    let Some(stamp) = number_of(stamp, u32::MAX) else {
        return Ok(None);
    };
    match slices_of(alloc, words)? {
        Some(memory) => Ok(Some(Line::Trigger {
            channel: channel as u8,
            stamp,
            memory,
        })),
        None => Ok(None),
    }
}
