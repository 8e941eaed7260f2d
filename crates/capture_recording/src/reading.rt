//! Reads a capture, piece by piece.
ghost use Rattle.std.specs.Prelude.{◌≡◌, ◌≢◌, ◌⊎◌, ◌<◌, ◌≤◌, [], IfErr, IfOk, OnOk, drop, length};
ghost use Rattle.std.specs.Prelude.{take};
ghost use Rattle.capture.specs.Units.{NextHas};
ghost use Rattle.capture_recording.specs.Reads.{TakesCapture, TakesUnits};
ghost use Rattle.capture_recording.specs.Refusals.{RefusesCapture, RefusesUnits};
ghost use Rattle.capture_recording.specs.Slaves.{AllTaken};

use crate::capture_read_fault::CaptureReadFault;
use crate::sinks::Sinks;
use crate::slaves::Slaves;
use capture::{CaptureReader, Step};
use program_input::{MAX_TEXT_BYTES, TextFault, is_read_to_end};
use std::alloc::Global;
use std::io::Read;

/// How many bytes are asked for in one read.
const CHUNK: usize = 65_536;

/// The most reads of a capture, the one that finds its end among them.
const MAX_READS: u64 = 1_099_511_627_776;

/// Reads a capture to its end. What stands before a fault was taken.
///
/// Refused at the first bytes that begin no header, record or block, and at a packet that
/// `Slaves::take` refuses; if the capture ends within a record or block; if it can't be read; and
/// for want of memory.
pub fn read_capture<I: Read, K: Sinks + Drop>(
    alloc: Global,
    input: &mut I,
    slaves: &mut Slaves<K>,
) -> Result<(), CaptureReadFault>
    ensures ok { (first : K) → AllTaken K.Sink.told K.reads first [] slaves.old
        → OnOk result (TakesCapture K.Sink.told K.reads first
        (I.remaining input.old) (I.remaining input.new) slaves.new) }
    ensures form { OnOk result (slaves.new.form ≡ slaves.old.form) }
    ensures port { OnOk result (slaves.new.port ≡ slaves.old.port) }
    ensures err { (first : K) → AllTaken K.Sink.told K.reads first [] slaves.old
        → IfErr result (RefusesCapture (AllTaken K.Sink.told K.reads first) (K.reads first)
        slaves.old.form slaves.old.port (I.remaining input.old) (I.remaining input.new)
        slaves.new) }
{
    let mut chunk = [0; CHUNK];
    let mut held = Vec::new(alloc);
    let mut reader = CaptureReader::new(alloc);
    'pieces: for _ in 0..MAX_READS {
        let taken = take_units(&mut reader, &held, slaves)?;
        drop_front(&mut held, taken);
        if held.len() > MAX_TEXT_BYTES {
            return Err(CaptureReadFault::Unreadable);
        }
        match is_read_to_end(input, &mut chunk, &mut held) {
            Ok(false) => {}
            Ok(true) => {
                slaves.end()?;
                return ended(&held);
            }
            Err(TextFault::Memory) => return Err(CaptureReadFault::Memory),
            Err(TextFault::Unreadable) => return Err(CaptureReadFault::Unreadable),
        }
    }
    Err(CaptureReadFault::Unreadable)
}

/// What comes of a capture at its end, of which these bytes are left.
fn ended(held: &[u8]) -> Result<(), CaptureReadFault>
    ensures ok { OnOk result (held.now ≡ []) }
    ensures err { IfErr result (λ fault. (fault ≡ CaptureReadFault.Torn) × (held.now ≢ [])) }
{
    if held.is_empty() {
        return Ok(());
    }
    Err(CaptureReadFault::Torn)
}

/// Takes the headers, records and blocks that are whole, and tells how many bytes they are.
fn take_units<K: Sinks + Drop>(
    reader: &mut CaptureReader,
    held: &[u8],
    slaves: &mut Slaves<K>,
) -> Result<usize, CaptureReadFault>
    ensures within { IfOk result (λ taken. taken ≤ length held.now) }
    ensures units { IfOk result (λ taken. TakesUnits K.Sink.told K.reads
        reader.old reader.new slaves.old slaves.new (take taken held.now)) }
    ensures short { IfOk result (λ taken. (drop taken held.now ≡ [])
        ⊎ NextHas (λ len. length (drop taken held.now) < len) reader.new
        (drop taken held.now)) }
    ensures form { OnOk result (slaves.new.form ≡ slaves.old.form) }
    ensures port { OnOk result (slaves.new.port ≡ slaves.old.port) }
    ensures err { IfErr result (RefusesUnits K.Sink.told K.reads reader.old slaves.old
        slaves.new held.now) }
{
    let mut at = 0usize;
    'units: for _ in 0..held.len() {
        let taken = take_unit(reader, &held[at..], slaves)?;
        if taken == 0 {
            return Ok(at);
        }
        at += taken;
    }
    Ok(at)
}

/// Takes the next header, record or block, if it is whole, and tells how many bytes it is.
fn take_unit<K: Sinks + Drop>(
    reader: &mut CaptureReader,
    bytes: &[u8],
    slaves: &mut Slaves<K>,
) -> Result<usize, CaptureReadFault>
    ensures within { IfOk result (λ taken. taken ≤ length bytes.now) }
    ensures units { IfOk result (λ taken. TakesUnits K.Sink.told K.reads
        reader.old reader.new slaves.old slaves.new (take taken bytes.now)) }
    ensures short { IfOk result (λ taken. taken ≡ 0
        → NextHas (λ len. length bytes.now < len) reader.new bytes.now) }
    ensures form { OnOk result (slaves.new.form ≡ slaves.old.form) }
    ensures port { OnOk result (slaves.new.port ≡ slaves.old.port) }
    ensures err { IfErr result (RefusesUnits K.Sink.told K.reads reader.old slaves.old
        slaves.new bytes.now) }
{
    match reader.next(bytes) {
        Ok(Step::Packet(len, captured)) => {
            slaves.take(&captured)?;
            Ok(len)
        }
        Ok(Step::Passed(len)) => Ok(len),
        Ok(Step::Wants(_)) => Ok(0),
        Err(fault) => Err(CaptureReadFault::of_capture(fault)),
    }
}

/// Drops the first `n` bytes.
fn drop_front(held: &mut Vec<u8>, n: usize)
    requires { n ≤ length held.old.items }
    ensures { held.new.items ≡ drop n held.old.items }
{
    let len = held.len();
    held.as_mut_slice().copy_within(n..len, 0);
    held.truncate(len - n);
}
