//! What came of a session, in words.
use crate::session_words::write_frames;
use daq_engine::ListReport;
use session_file::Played;
use std::alloc::{AllocError, Global};
use xcp_base::ListId;
use xcp_base::limits::MAX_LISTS;

/// A line of hexadecimal digits for each datagram, an empty line, and the account. Lack of memory
/// is the only fault.
pub fn text_of(alloc: Global, played: &Played) -> Result<String, AllocError> {
    let mut text = String::new(alloc);
    write_datagrams(alloc, &mut text, played)?;
    write_account(&mut text, played)?;
    Ok(text)
}

/// Behind the words of the lines of a session a line in words for each frame, an empty line, and
/// the account. Lack of memory is the only fault.
pub fn told_of(words: String, played: &Played) -> Result<String, AllocError> {
    let mut text = words;
    write_frames(&mut text, played)?;
    write_account(&mut text, played)?;
    Ok(text)
}

/// Writes an empty line, and the account.
fn write_account(text: &mut String, played: &Played) -> Result<(), AllocError> {
    writeln!(text)?;
    write_parts(text, played)?;
    write_sums(text, played)?;
    writeln!(text, "refused {}", played.refused)
}

/// The lines of the datagrams.
fn write_datagrams(alloc: Global, text: &mut String, played: &Played) -> Result<(), AllocError> {
    let bytes = played.sent.bytes();
    let mut from = 0;
    for end in &played.ends {
        if let Some(datagram) = bytes.get(from..*end) {
            write_datagram(alloc, text, datagram)?;
        }
        from = *end;
    }
    Ok(())
}

/// The line of a datagram.
fn write_datagram(alloc: Global, text: &mut String, bytes: &[u8]) -> Result<(), AllocError> {
    let digits = hex::encode(alloc, bytes)?;
    writeln!(text, "{digits}")
}

/// The lines of the parts of measurements that came back.
fn write_parts(text: &mut String, played: &Played) -> Result<(), AllocError> {
    for part in played.parts.lines() {
        write!(text, "measurement {} ", part.measurement)?;
        write_line(text, &part.line)?;
    }
    Ok(())
}

/// The sums of the lists.
fn write_sums(text: &mut String, played: &Played) -> Result<(), AllocError> {
    for l in 0..MAX_LISTS {
        if let Some(line) = sum_of(played, ListId::at(l)) {
            write_line(text, &line)?;
        }
    }
    Ok(())
}

/// The sums of a list, if a part of a measurement had it.
fn sum_of(played: &Played, list: ListId) -> Option<ListReport> {
    if !played.parts.have(list.byte()) {
        return None;
    }
    Some(played.account.line(list))
}

/// The line of a list.
fn write_line(text: &mut String, line: &ListReport) -> Result<(), AllocError> {
    writeln!(
        text,
        "list {} due {} written {} dropped {} left {}",
        line.list, line.due, line.written, line.dropped, line.left
    )
}
