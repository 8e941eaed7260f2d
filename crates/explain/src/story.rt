//! What became of a run.
use crate::byte_text::ByteText;
use crate::came_text::CameText;
use crate::command_text::CommandText;
use crate::frame_lines::FrameLines;
use crate::reply_text::ReplyText;
use crate::step_log::StepLog;
use crate::step_text::StepText;
use daq_reader::{ReadFault, Reader, Unread, read, reader_of};
use daq_run::set_up;
use frame_writer::VecOut;
use run_file::Run;
use std::alloc::{AllocError, Global};

/// The story of a run that was carried out: a line for each command packet, with its reply as it
/// was written; for each step, with what came of it; and for each frame that was written.
pub fn story_of(
    alloc: Global,
    run: &Run,
    log: Option<&StepLog>,
    written: &[u8],
) -> Result<String, AllocError> {
    let mut text = String::new(alloc);
    let mut unread = Unread::new(written, 0);
    write_replies(&mut text, run.setup(), &mut unread)?;
    match log {
        Some(log) => write_steps(&mut text, run, log)?,
        None => text.push_str("steps: not told, since each event channel had its own thread\n")?,
    }
    with_frames(alloc, text, run, &mut unread)
}

/// The story of a run that was not carried out, as far as its replies were written.
pub fn set_up_story(alloc: Global, run: &Run, written: &[u8]) -> Result<String, AllocError> {
    let mut text = String::new(alloc);
    let mut unread = Unread::new(written, 0);
    write_replies(&mut text, run.setup(), &mut unread)?;
    Ok(text)
}

/// Writes a line for each command packet, with the reply that was written.
fn write_replies(
    text: &mut String,
    packets: &[Vec<u8>],
    unread: &mut Unread<'_>,
) -> Result<(), AllocError> {
    for (i, packet) in packets.iter().enumerate() {
        write_packet(text, i, packet.as_slice(), unread)?;
    }
    Ok(())
}

/// Writes the line of a command packet, with the reply that was written next.
pub fn write_packet(
    text: &mut String,
    i: usize,
    packet: &[u8],
    unread: &mut Unread<'_>,
) -> Result<(), AllocError> {
    let bytes = ByteText { bytes: packet };
    let command = CommandText { packet };
    write!(text, "packet {i} ({bytes}) {command}: ")?;
    write_reply(text, unread)
}

/// Writes the reply that was written next.
fn write_reply(text: &mut String, unread: &mut Unread<'_>) -> Result<(), AllocError> {
    match unread.next_packet() {
        Ok(Some(packet)) => {
            let bytes = ByteText { bytes: packet };
            let reply = ReplyText { packet };
            writeln!(text, "{bytes} {reply}")
        }
        _ => text.push_str("no reply\n"),
    }
}

/// Writes a line for each step, with what came of it.
fn write_steps(text: &mut String, run: &Run, log: &StepLog) -> Result<(), AllocError> {
    if log.is_short {
        return Err(AllocError);
    }
    for i in 0..run.steps() {
        let Some(step) = run.step(i) else {
            return Ok(());
        };
        let Some(came) = log.cames.get(i) else {
            return Ok(());
        };
        let step = StepText { step };
        let came = CameText { came: *came };
        writeln!(text, "step {i} {step}: {came}")?;
    }
    Ok(())
}

/// A text with a line for each frame that is left, decoded by the run's DAQ lists.
fn with_frames(
    alloc: Global,
    text: String,
    run: &Run,
    unread: &mut Unread<'_>,
) -> Result<String, AllocError> {
    let mut reader = reader_behind(alloc, run)?;
    let mut lines = FrameLines::new(text, unread.counter());
    let ended = read(&mut reader, unread, &mut lines);
    let told = lines.counter();
    let mut text = lines.into_text()?;
    write_untold(&mut text, unread, told, ended)?;
    Ok(text)
}

/// A reader of the DAQ lists that the set-up of a run makes ready.
fn reader_behind(alloc: Global, run: &Run) -> Result<Reader, AllocError> {
    let Ok((store, _)) = set_up(alloc, run, VecOut::new(alloc)) else {
        return Err(AllocError);
    };
    reader_of(alloc, &store)
}

/// Writes which frames were read but told in no line, from the one with counter `told` on; and
/// which bytes are behind them, if the frames end in a fault.
fn write_untold(
    text: &mut String,
    unread: &Unread<'_>,
    told: u16,
    ended: Result<(), ReadFault>,
) -> Result<(), AllocError> {
    let more = unread.counter().wrapping_sub(told);
    if more > 0 {
        writeln!(
            text,
            "frames {more} from {told} on: of a sample that wasn't written whole"
        )?;
    }
    let Err(fault) = ended else {
        return Ok(());
    };
    let left = unread.rest().len();
    writeln!(text, "bytes {left} behind them: {fault}")
}
