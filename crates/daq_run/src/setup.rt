//! The command packets of a run are carried out, and the replies are written as frames.
ghost use Rattle.std.specs.Prelude.{◌≡◌, IfOk, IsErrOf, OnErr, OnOk, map, vec_items};
ghost use Rattle.frame_writer.specs.Writing.{state_of};
ghost use Rattle.daq_run.specs.declared.setup.SetupFault.TheVariants.{Memory, Write};
ghost use Rattle.daq_run.specs.Setup.{AnswersPacket, CarriesAll, LosesReply, NeedsMemory};
ghost use Rattle.daq_run.specs.Setup.{WantsMemory};

use daq_store::{NoMemory, Reply, Store, command};
use frame_writer::{FrameWriter, Out, WriteFault};
use thiserror::Error;

/// Why not all command packets were carried out and answered.
#[derive(Clone, Copy, Debug, PartialEq, Eq, Error)]
pub enum SetupFault {
    /// An allocation ran out of memory. It wasn't carried out.
    #[error("out of memory")]
    Memory,
    /// A reply could not be written. Its command was carried out.
    #[error("a reply could not be written")]
    Write,
}

impl From<NoMemory> for SetupFault {
    ghost from_gives = { λ _ fault. fault ≡ Memory };

    fn from(_error: NoMemory) -> SetupFault {
        SetupFault::Memory
    }
}

impl From<WriteFault> for SetupFault {
    ghost from_gives = { λ _ fault. fault ≡ Write };

    fn from(_error: WriteFault) -> SetupFault {
        SetupFault::Write
    }
}

/// Carries command packets out, one after another, and writes the reply to each as a frame.
///
/// Refused with `Memory` at an allocation that runs out of memory, and with `Write` if a reply
/// isn't written whole: the writer failed or stalled, or the frame writer was closed from the
/// start. The packets before are then carried out and answered, and none after.
pub fn carry_all<O: Out>(
    store: &mut Store,
    packets: &[Vec<u8>],
    writer: &mut FrameWriter<O>,
) -> Result<(), SetupFault>
    ensures ok { OnOk result (CarriesAll store.old store.new
        (state_of O.Out writer.old) (state_of O.Out writer.new) (map vec_items packets.now)) }

    ensures memory { IsErrOf result SetupFault.Memory → WantsMemory store.old store.new
        (state_of O.Out writer.old) (state_of O.Out writer.new) (map vec_items packets.now) }
    ensures write { IsErrOf result SetupFault.Write → LosesReply store.old store.new
        (state_of O.Out writer.old) (state_of O.Out writer.new) (map vec_items packets.now) }

    ensures profile_stays { store.new.profile ≡ store.old.profile }
{
    for packet in packets {
        let reply = carry_packet(store, packet)?;
        writer.send(reply.bytes().as_slice())?;
    }
    Ok(())
}

/// Carries one command packet out, and answers it.
fn carry_packet(store: &mut Store, packet: &[u8]) -> Result<Reply, NoMemory>
    ensures ok { IfOk result (AnswersPacket store.old store.new packet.now) }
    ensures no_memory { OnErr result (NeedsMemory store.old packet.now) }
    ensures unchanged { OnErr result (store.new ≡ store.old) }
    ensures profile_stays { store.new.profile ≡ store.old.profile }
{
    match command::read(packet) {
        Ok(command) => command::carry_out(store, command),
        Err(code) => Ok(Reply::Error(code)),
    }
}
