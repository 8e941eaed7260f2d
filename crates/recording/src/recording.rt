//! Reads a recording, piece by piece.
ghost use Rattle.std.specs.Prelude.{◌≡◌, ◌≢◌, ◌↔◌, ◌⊎◌, ◌+◌, ◌%◌, ◌^◌, ◌<◌, ◌≤◌, ◌++◌, ℕ, List, []};
ghost use Rattle.std.specs.Prelude.{Err, IfErr, IfOk, IfSome, IsOk, OnOk, Option, Some, false};
ghost use Rattle.std.specs.Prelude.{length, true};
ghost use Rattle.std.specs.Io.{StartsWith};
ghost use Rattle.std.specs.Io.KnownBytes.{Consumes, IsAtEnd};
ghost use Rattle.daq_reader.specs.Frames.{HasFrame};
ghost use Rattle.daq_reader.specs.Lists.{NoneWaits, Stands, plans_of};
ghost use Rattle.daq_reader.specs.Reads.{HasRead, IsFaultOf};
ghost use Rattle.daq_reader.specs.Recorded.{Recorded};
ghost use Rattle.daq_reader.specs.Recording.{AreGivenBack, IsRecordingOf};
ghost use Rattle.recording.specs.Faults.{breaks_off, torn};
ghost use Rattle.recording.specs.declared.recording_fault.RecordingFault.TheVariants.{Memory};
ghost use Rattle.recording.specs.Pieces.{IsReason, Passes, StandSomewhere, unread_of};
ghost use Rattle.recording.specs.Pieces.{IsLeftUnread, unread_with};
ghost use Rattle.recording.specs.Stops.{IsOfReading};
ghost use Rattle.recording.specs.declared.piece.TheConstants.{MAX_FRAME};
ghost use Rattle.recording.specs.declared.recording_fault.RecordingFault.TheVariants.{BreaksOff};
ghost use Rattle.recording.specs.declared.recording_fault.RecordingFault.TheVariants.{InReplies};
ghost use Rattle.recording.specs.declared.recording_fault.RecordingFault.TheVariants.{OtherRun};
ghost use Rattle.recording.specs.declared.recording_fault.RecordingFault.TheVariants.{Unreadable};
ghost use Rattle.recording.specs.declared.reason.Reason.TheVariants.{WithinSample};

use crate::break_off::BreakOff;
use crate::messages::Messages;
use crate::piece::{CHUNK, MAX_FRAME, MAX_READS, Piece, drop_front, read_more};
use crate::place::Place;
use crate::reason::Reason;
use crate::recording_fault::RecordingFault;
use daq_reader::{FrameFault, ReadFault, Reader, Samples, Unread, read};
use program_input::front_from;
use std::alloc::Global;
use std::io::{Read, Write};

/// Reads the replies with which a recording begins, in so many frames, and gives what was read
/// behind them.
pub fn pass_replies<I: Read>(
    alloc: Global,
    input: &mut I,
    replies: &[u8],
    frames: usize,
) -> Result<Piece, RecordingFault>
    ensures begins { IfOk result (λ piece. Consumes (I.remaining input.old)
        (I.remaining input.new) (replies.now ++ piece.bytes.items)) }
    ensures place { IfOk result (λ piece.
        piece.place ≡ record { byte = length replies.now; frame = frames }) }
    ensures other { result ≡ Err OtherRun → IfSome (I.remaining input.old)
        (λ bytes. ¬ StartsWith bytes replies.now) }
    ensures within { result ≡ Err InReplies → IfSome (I.remaining input.old)
        (λ bytes. StartsWith replies.now bytes × (length bytes < length replies.now)) }
    ensures fault { IfErr result (λ f. (f ≡ OtherRun) ⊎ (f ≡ InReplies) ⊎ (f ≡ Unreadable)
        ⊎ (f ≡ Memory)) }

    ensures passed { (behind : List ℕ) → I.remaining input.old ≡ Some (replies.now ++ behind)
        → (result ≢ Err OtherRun) × (result ≢ Err InReplies)
        × IfOk result (IsLeftUnread (I.remaining input.new)
        (record { rest = behind; counter = frames % 65536 })) }
{
    let mut bytes = front_from(alloc, input, replies.len()).map_err(RecordingFault::of_text)?;
    if !begins_with(&bytes, replies) {
        return Err(fault_of_front(&bytes, replies));
    }
    drop_front(&mut bytes, replies.len());
    let place = Place {
        byte: replies.len() as u64,
        frame: frames as u64,
    };
    Ok(Piece { bytes, place })
}

/// Why bytes that don't begin with the replies are no recording of the run.
fn fault_of_front(bytes: &[u8], replies: &[u8]) -> RecordingFault
    ensures within { (result ≡ InReplies) ↔ StartsWith replies.now bytes.now }
    ensures other { (result ≡ OtherRun) ↔ ¬ StartsWith replies.now bytes.now }
    ensures one { (result ≡ OtherRun) ⊎ (result ≡ InReplies) }
{
    if begins_with(replies, bytes) {
        return RecordingFault::InReplies;
    }
    RecordingFault::OtherRun
}

/// Whether bytes begin with others.
fn begins_with(bytes: &[u8], front: &[u8]) -> bool
    ensures { (result ≡ true) ↔ StartsWith bytes.now front.now }
{
    bytes.starts_with(front)
}

/// Reads the frames behind the replies, piece by piece, to the end of the recording; hands each
/// sample that is whole over, and tells how far it has come.
pub fn read_frames<I: Read, S: Samples, M: Messages>(
    input: &mut I,
    piece: &mut Piece,
    reader: &mut Reader,
    samples: &mut S,
    messages: &mut M,
) -> Result<(), RecordingFault>
    requires stands { StandSomewhere reader.old (S.handed samples.old) }
    ensures read { OnOk result (Passes reader.old (S.handed samples.old) reader.new
        (S.handed samples.new) (I.remaining input.old) (I.remaining input.new)
        piece.old piece.new) }
    ensures end { OnOk result (IsAtEnd (I.remaining input.new)) }
    ensures all { OnOk result (piece.new.bytes.items ≡ []) }
    ensures whole { OnOk result (NoneWaits reader.new) }

    ensures broken { (at : BreakOff) → result ≡ Err (BreaksOff at) → Passes reader.old
        (S.handed samples.old) reader.new (S.handed samples.new) (I.remaining input.old)
        (I.remaining input.new) piece.old piece.new }
    ensures place { (at : BreakOff) → result ≡ Err (BreaksOff at) → at.place ≡ piece.new.place }
    ensures why { (at : BreakOff) → result ≡ Err (BreaksOff at)
        → IsReason reader.new (unread_of piece.new) (I.remaining input.new) at.why }
    ensures fault { IfErr result IsOfReading }

    ensures given { (before : List (List ℕ)) (written : List (ℕ × Recorded)) (left : List ℕ)
        → Stands reader.old before (S.handed samples.old) → I.remaining input.old ≡ Some left
        → IsRecordingOf (plans_of reader.old) written before (unread_with piece.old left)
        → ((at : BreakOff) → result ≢ Err (BreaksOff at))
        × OnOk result (AreGivenBack reader.new written (S.handed samples.new)) }
    ensures lists { plans_of reader.new ≡ plans_of reader.old }
    ensures kept { S.kept samples.new ≡ S.kept samples.old }
{
    let mut chunk = [0; CHUNK];
    for _ in 0..MAX_READS {
        if let Err(why) = take_whole(piece, reader, samples) {
            return Err(broken(piece, Reason::Read(why)));
        }
        messages.read_to(piece.place.byte);
        if read_more(input, &mut chunk, &mut piece.bytes)? {
            return ended(piece, reader);
        }
    }
    Err(RecordingFault::Unreadable)
}

/// What comes of a recording that is at its end: it is read where no byte is left, and no list
/// wants packets of a sample.
fn ended(piece: &Piece, reader: &Reader) -> Result<(), RecordingFault>
    ensures ok { IsOk result
        ↔ (piece.now.bytes.items ≡ []) × NoneWaits reader.now }
    ensures torn { piece.now.bytes.items ≢ []
        → result ≡ Err (breaks_off piece.now.place torn) }
    ensures within { piece.now.bytes.items ≡ [] → ¬ NoneWaits reader.now
        → result ≡ Err (breaks_off piece.now.place WithinSample) }
    ensures place { (at : BreakOff) → result ≡ Err (BreaksOff at) → at.place ≡ piece.now.place }
    ensures why { (at : BreakOff) (rest : Option (List ℕ)) → IsAtEnd rest
        → ((n : ℕ) → ¬ HasFrame (unread_of piece.now) n)
        → result ≡ Err (BreaksOff at) → IsReason reader.now (unread_of piece.now) rest at.why }
    ensures fault { IfErr result IsOfReading }
{
    if !piece.bytes.is_empty() {
        return Err(broken(piece, Reason::Read(ReadFault::Frame(FrameFault::Torn))));
    }
    if !reader.is_between_samples() {
        return Err(broken(piece, Reason::WithinSample));
    }
    Ok(())
}

/// The recording breaks off where a piece begins.
fn broken(piece: &Piece, why: Reason) -> RecordingFault
    ensures { result ≡ breaks_off piece.now.place why }
{
    RecordingFault::BreaksOff(BreakOff {
        place: piece.place,
        why,
    })
}

/// Reads the frames that are whole, and keeps the bytes behind them where they may be the front of
/// another.
fn take_whole<S: Samples>(
    piece: &mut Piece,
    reader: &mut Reader,
    samples: &mut S,
) -> Result<(), ReadFault>
    requires stands { StandSomewhere reader.old (S.handed samples.old) }
    ensures read { (qs : List (List ℕ)) → Stands reader.old qs (S.handed samples.old)
        → HasRead reader.new qs (S.handed samples.new) (unread_of piece.old) (unread_of piece.new) }
    ensures byte { (piece.old.place.byte + length piece.old.bytes.items) % 2 ^ 64
        ≡ (piece.new.place.byte + length piece.new.bytes.items) % 2 ^ 64 }
    ensures short { OnOk result (length piece.new.bytes.items < MAX_FRAME) }
    ensures none { OnOk result ((n : ℕ) → ¬ HasFrame (unread_of piece.new) n) }
    ensures fault { IfErr result (IsFaultOf reader.new (unread_of piece.new)) }
    ensures long { result ≡ Err (ReadFault.Frame FrameFault.Torn)
        → MAX_FRAME ≤ length piece.new.bytes.items }
    ensures lists { plans_of reader.new ≡ plans_of reader.old }
    ensures kept { S.kept samples.new ≡ S.kept samples.old }
{
    let Err(why) = take_frames(piece, reader, samples) else {
        return Ok(());
    };
    if is_final(why, piece.bytes.len()) {
        return Err(why);
    }
    Ok(())
}

/// Whether a fault stays one, however many bytes come behind the `left` that are there.
fn is_final(why: ReadFault, left: usize) -> bool
    ensures { (result ≡ false) ↔ (why ≡ ReadFault.Frame FrameFault.Torn) × (left < MAX_FRAME) }
{
    match why {
        ReadFault::Frame(FrameFault::Torn) => left >= MAX_FRAME,
        _ => true,
    }
}

/// Reads the frames that are whole, and keeps the bytes behind them.
fn take_frames<S: Samples>(
    piece: &mut Piece,
    reader: &mut Reader,
    samples: &mut S,
) -> Result<(), ReadFault>
    requires stands { StandSomewhere reader.old (S.handed samples.old) }
    ensures read { (qs : List (List ℕ)) → Stands reader.old qs (S.handed samples.old)
        → HasRead reader.new qs (S.handed samples.new) (unread_of piece.old) (unread_of piece.new) }
    ensures byte { (piece.old.place.byte + length piece.old.bytes.items) % 2 ^ 64
        ≡ (piece.new.place.byte + length piece.new.bytes.items) % 2 ^ 64 }
    ensures end { OnOk result (piece.new.bytes.items ≡ []) }
    ensures fault { IfErr result (IsFaultOf reader.new (unread_of piece.new)) }
    ensures lists { plans_of reader.new ≡ plans_of reader.old }
    ensures kept { S.kept samples.new ≡ S.kept samples.old }
{
    let counter = piece.place.counter();
    let mut unread = Unread::new(&piece.bytes, counter);
    let outcome = read(reader, &mut unread, samples);
    let left = unread.rest().len();
    let frames = unread.counter().wrapping_sub(counter);
    let taken = piece.bytes.len() - left;
    drop_front(&mut piece.bytes, taken);
    piece.place = piece.place.behind(taken, frames);
    outcome
}
