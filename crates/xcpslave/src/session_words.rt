//! A session in words: its lines, and the frames that were sent.
use explain::{ByteText, ReplyText, RequestText};
use session_file::{Line, Played};
use std::alloc::{AllocError, Global};

/// A line in words for each line of a script.
pub fn words_of(alloc: Global, script: &[Line]) -> Result<String, AllocError> {
    let mut text = String::new(alloc);
    for (i, line) in script.iter().enumerate() {
        write!(text, "line {i} ")?;
        write_line(&mut text, line)?;
    }
    Ok(text)
}

/// Writes a line of a script in words.
fn write_line(text: &mut String, line: &Line) -> Result<(), AllocError> {
    match line {
        Line::Master(packet) => {
            let bytes = ByteText { bytes: packet };
            writeln!(text, "master ({bytes}) {}", RequestText { packet })
        }
        Line::Trigger {
            channel,
            stamp,
            memory,
        } => {
            write!(
                text,
                "trigger of event channel {channel}, timestamp {stamp}: "
            )?;
            write_slices(text, memory)
        }
        Line::Memory(memory) => write_memory(text, memory),
        Line::Send => text.push_str("send: what waits is sent\n"),
        Line::SendIn(room) => {
            writeln!(text, "send: of what waits, frames of {room} bytes at most")
        }
        Line::Lose => text.push_str("lose: the transport refuses what waits\n"),
        Line::HangUp => text.push_str("hang_up: the transport is lost\n"),
    }
}

/// Writes the memory that is there for the next packets.
fn write_memory(text: &mut String, memory: &[Vec<u8>]) -> Result<(), AllocError> {
    if memory.iter().all(|slice| slice.is_empty()) {
        return text.push_str("memory: none is there for the next packets\n");
    }
    text.push_str("memory for the next packets: ")?;
    write_slices(text, memory)
}

/// Writes a slice for each segment, and ends the line.
fn write_slices(text: &mut String, memory: &[Vec<u8>]) -> Result<(), AllocError> {
    for (i, slice) in memory.iter().enumerate() {
        if i > 0 {
            text.push_str(", ")?;
        }
        write_slice(text, slice)?;
    }
    writeln!(text)
}

/// Writes the slice of a segment, or that it isn't there.
fn write_slice(text: &mut String, slice: &[u8]) -> Result<(), AllocError> {
    if slice.is_empty() {
        return text.push_str("none");
    }
    let bytes = ByteText { bytes: slice };
    write!(text, "{bytes}")
}

/// Writes a line for each frame that was sent.
pub fn write_frames(text: &mut String, played: &Played) -> Result<(), AllocError> {
    let bytes = played.sent.bytes();
    let mut from = 0;
    for (i, end) in played.ends.iter().enumerate() {
        if let Some(datagram) = bytes.get(from..*end) {
            write_datagram(text, i, datagram)?;
        }
        from = *end;
    }
    Ok(())
}

/// Writes a line for each frame of a datagram.
fn write_datagram(text: &mut String, i: usize, datagram: &[u8]) -> Result<(), AllocError> {
    let mut left = datagram;
    // each frame has four bytes and more, so there are fewer than bytes
    for _ in 0..datagram.len() {
        let [a, b, c, d, behind @ ..] = left else {
            return Ok(());
        };
        let len = u16::from_le_bytes([*a, *b]) as usize;
        let counter = u16::from_le_bytes([*c, *d]);
        let Some((packet, rest)) = behind.split_at_checked(len) else {
            return Ok(());
        };
        write!(text, "datagram {i}, frame {counter}: ")?;
        write_packet(text, packet)?;
        left = rest;
    }
    Ok(())
}

/// Writes the packet of a frame: a reply, or one of a sample.
fn write_packet(text: &mut String, packet: &[u8]) -> Result<(), AllocError> {
    let bytes = ByteText { bytes: packet };
    match packet {
        [0xFF, ..] => writeln!(text, "{bytes} RES"),
        [0xFE, ..] => writeln!(text, "{bytes} {}", ReplyText { packet }),
        _ => writeln!(text, "{bytes} of a sample"),
    }
}
