//! The smallest run: one DAQ list over images of two bytes, without a store and without rings.
ghost use Rattle.std.specs.Prelude.{◌≡◌, IfErr, IfOk};
ghost use Rattle.frame_writer.specs.Frame.{text};
ghost use Rattle.frame_writer.specs.Shown.{BreaksOff, after_bytes, shown};
ghost use Rattle.daq_run.specs.Fixed.{fixed_packet, fixed_packets};

use frame_writer::{FrameWriter, Out, WriteFault};

/// PID of the one ODT.
const PID: u8 = 0;

/// Samples each image of two bytes by one DAQ list, whose one ODT has both, and writes the packets
/// as frames.
///
/// The writer comes back; with a fault it took a proper prefix of what was to be written.
pub fn fixed_run<O: Out>(images: &[[u8; 2]], out: O) -> Result<O, (WriteFault, O)>
    ensures ok { IfOk result (λ written.
        shown O.Out written ≡ after_bytes (shown O.Out out) (text 0 (fixed_packets images.now))) }
    ensures failed { IfErr result (λ e. e.0 ≡ WriteFault.Failed) }
    ensures torn { IfErr result (λ e.
        BreaksOff (shown O.Out out) (shown O.Out e.1) (text 0 (fixed_packets images.now))) }
{
    let mut writer = FrameWriter::new(out);
    for image in images {
        if let Err(fault) = writer.send(&packet_of(*image)) {
            return Err((fault, writer.into_out()));
        }
    }
    Ok(writer.into_out())
}

/// The packet of an image.
fn packet_of(image: [u8; 2]) -> [u8; 3]
    ensures { result ≡ fixed_packet image }
{
    let [first, second] = image;
    [PID, first, second]
}
