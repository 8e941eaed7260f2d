//! Why a capture is read no further.

use capture::CaptureFault;
use captured_session::SessionFault;
use thiserror::Error;

/// Why a capture is read no further.
#[derive(Clone, Copy, Debug, PartialEq, Eq, Error)]
pub enum CaptureReadFault {
    /// It can't be read.
    #[error("cannot read capture")]
    Unreadable,
    /// It isn't a capture.
    #[error("no capture of pcap 2.4 or pcapng 1")]
    NoCapture,
    /// It isn't one any further.
    #[error("bad capture: {0}")]
    Capture(CaptureFault),
    /// Its last record or block isn't whole.
    #[error("capture breaks off within a packet")]
    Torn,
    /// A session in it can't be followed.
    #[error("capture: {0}")]
    Session(SessionFault),
    /// There are more than `MAX_SLAVES` slaves.
    #[error("capture of over 256 slaves")]
    ManySlaves,
    /// Want of memory.
    #[error("out of memory")]
    Memory,
}

impl CaptureReadFault {
    ghost use Rattle.std.specs.Prelude.{◌≡◌};
    ghost use Rattle.capture_recording.specs.Refusals.{fault_of_capture, fault_of_session};

    /// Why a capture is read no further, by what is wrong with its form.
    pub fn of_capture(fault: CaptureFault) -> CaptureReadFault
        ensures { result ≡ fault_of_capture fault }
    {
        match fault {
            CaptureFault::Memory => CaptureReadFault::Memory,
            CaptureFault::NoCapture => CaptureReadFault::NoCapture,
            CaptureFault::Bad | CaptureFault::Long | CaptureFault::ManyInterfaces => {
                CaptureReadFault::Capture(fault)
            }
        }
    }

    /// Why a capture is read no further, by what is wrong with a session in it.
    pub fn of_session(fault: SessionFault) -> CaptureReadFault
        ensures { result ≡ fault_of_session fault }
    {
        match fault {
            SessionFault::Memory => CaptureReadFault::Memory,
            SessionFault::ManyFacts => CaptureReadFault::Session(fault),
        }
    }
}
