//! A recording is read frame by frame, and each whole sample is handed over.
ghost use Rattle.std.specs.Prelude.{◌≡◌, ◌≢◌, ◌↔◌, List, ℕ, [], ◌∷◌, ◌++◌, IfErr, IsOk, None};
ghost use Rattle.std.specs.Prelude.{Ok, OnErr, OnOk, Some, true, false};
ghost use Rattle.frame_writer.specs.Frame.{frame};
ghost use Rattle.frame_writer.specs.Split.{Fits};
ghost use Rattle.daq_reader.specs.Frames.{IsNext};
ghost use Rattle.daq_reader.specs.Lists.{Stands, plans_of, refusal};
ghost use Rattle.daq_reader.specs.Reads.{HasRead, IsFaultOf};
ghost use Rattle.daq_reader.specs.Recorded.{Recorded};
ghost use Rattle.daq_reader.specs.Recording.{AreGivenBack, IsRecordingOf};

use crate::packet_fault::PacketFault;
use crate::read_fault::ReadFault;
use crate::reader::Reader;
use crate::samples::Samples;
use crate::unread::Unread;

/// Reads all frames that are left, and hands over each sample that is whole.
///
/// Of a recording of whole samples each sample is handed over, once and in order. Whatever ends it,
/// the frames that it went over are read, and nothing behind them: `unread` stands at the frame
/// that was not.
pub fn read<S: Samples>(
    reader: &mut Reader,
    unread: &mut Unread<'_>,
    samples: &mut S,
) -> Result<(), ReadFault>
    ensures read { (qs : List (List ℕ)) → Stands reader.old qs (S.handed samples.old)
        → HasRead reader.new qs (S.handed samples.new) unread.old unread.new }
    ensures end { OnOk result (unread.new.rest ≡ []) }
    ensures whole { (before : List (List ℕ)) (written : List (ℕ × Recorded))
        → Stands reader.old before (S.handed samples.old)
        → IsRecordingOf (plans_of reader.old) written before unread.old
        → IsOk result × AreGivenBack reader.new written (S.handed samples.new) }
    ensures fault { IfErr result (IsFaultOf reader.new unread.new) }
    ensures lists { plans_of reader.new ≡ plans_of reader.old }
    ensures kept { S.kept samples.new ≡ S.kept samples.old }
{
    while read_frame(reader, unread, samples)? {}
    Ok(())
}

/// Reads the next frame; `false` at the end.
pub fn read_frame<S: Samples>(
    reader: &mut Reader,
    unread: &mut Unread<'_>,
    samples: &mut S,
) -> Result<bool, ReadFault>
    ensures read { result ≡ Ok true → (q : List ℕ) × IsNext unread.old unread.new q
        × ((qs : List (List ℕ)) → Stands reader.old qs (S.handed samples.old)
        → Stands reader.new (qs ++ q ∷ []) (S.handed samples.new)) }
    ensures takes { (q behind : List ℕ) → Fits q
        → unread.old.rest ≡ frame unread.old.counter q ++ behind
        → refusal reader.old q ≡ None → result ≡ Ok true }
    ensures end { (result ≡ Ok false) ↔ (unread.old.rest ≡ []) }
    ensures fault { IfErr result (IsFaultOf reader.old unread.old) }
    ensures stays { result ≢ Ok true → (unread.new ≡ unread.old) × (reader.new ≡ reader.old)
        × (S.handed samples.new ≡ S.handed samples.old) }
    ensures lists { plans_of reader.new ≡ plans_of reader.old }
    ensures kept { S.kept samples.new ≡ S.kept samples.old }
{
    let before = Unread::new(unread.rest(), unread.counter());
    let packet = match unread.next_packet() {
        Ok(Some(packet)) => packet,
        Ok(None) => return Ok(false),
        Err(fault) => return Err(ReadFault::Frame(fault)),
    };
    if let Err(fault) = read_packet(reader, packet, samples) {
        *unread = before;
        return Err(ReadFault::Packet(fault));
    }
    Ok(true)
}

/// Takes the next packet, and hands over the sample that is whole with it.
pub fn read_packet<S: Samples>(
    reader: &mut Reader,
    packet: &[u8],
    samples: &mut S,
) -> Result<(), PacketFault>
    ensures stands { (qs : List (List ℕ)) → Stands reader.old qs (S.handed samples.old)
        → OnOk result (Stands reader.new (qs ++ packet.now ∷ []) (S.handed samples.new)) }
    ensures no_fault { OnOk result (refusal reader.old packet.now ≡ None) }
    ensures fault { IfErr result (λ fault. refusal reader.old packet.now ≡ Some fault) }
    ensures err { OnErr result (reader.new ≡ reader.old) }
    ensures none_handed { OnErr result (S.handed samples.new ≡ S.handed samples.old) }
    ensures lists { plans_of reader.new ≡ plans_of reader.old }
    ensures kept { S.kept samples.new ≡ S.kept samples.old }
{
    let whole = reader.take(packet)?;
    let Some(place) = whole else {
        return Ok(());
    };
    let Some(list) = reader.list(place) else {
        unreachable!();
    };
    let Some(sample) = list.sample() else {
        unreachable!();
    };
    samples.hand(place, &sample);
    Ok(())
}
