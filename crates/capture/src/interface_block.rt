//! What an interface description block says.
ghost use Rattle.std.specs.Prelude.{◌≡◌, ℕ, List, IfErr, IfOk, IsErr, FitsSigned};
ghost use Rattle.std.specs.Int.{w64};
ghost use Rattle.capture.specs.Blocks.{HasBytes, IsInterface, offset_told, resolution_told};
ghost use Rattle.capture.specs.Options.{AreOptions, value_of};
ghost use Rattle.capture.specs.declared.interface.Interface.{Interface as InterfaceOf};

use crate::capture_fault::CaptureFault;
use crate::interface::Interface;
use crate::numbers::number_at;
use crate::options::option_value;
use measured_values::ByteOrder;

/// The code of the option that says into what a second is divided.
const IF_TSRESOL: u64 = 9;

/// The code of the option that says how many seconds are added.
const IF_TSOFFSET: u64 = 14;

/// The interface that a block describes. Refused if it describes none.
pub fn interface_in(order: ByteOrder, block: &[u8]) -> Result<Interface, CaptureFault>
    ensures ok { IfOk result (IsInterface order block.now) }
    ensures err { IfErr result (λ fault. fault ≡ CaptureFault.Bad) }
    ensures none { IsErr result → (i : InterfaceOf) → IsInterface order block.now i → ⊥ }
{
    if block.len() < 20 {
        return Err(CaptureFault::Bad);
    }
    let options = &block[16..block.len() - 4];
    let resolution = resolution_in(order, options)?;
    let offset = offset_in(order, options)?;
    Ok(Interface {
        link: number_at(order, block, 8, 2) as u16,
        snap_len: number_at(order, block, 12, 4) as u32,
        resolution,
        offset,
    })
}

/// Into what a second is divided, by these options: microseconds, if they don't say.
fn resolution_in(order: ByteOrder, bytes: &[u8]) -> Result<u8, CaptureFault>
    ensures ok { IfOk result (λ code. (options : List (ℕ × List ℕ))
        × AreOptions order bytes.now options × HasBytes 1 (value_of IF_TSRESOL options)
        × (code ≡ resolution_told (value_of IF_TSRESOL options))) }
    ensures err { IfErr result (λ fault. fault ≡ CaptureFault.Bad) }
    ensures none { IsErr result → (options : List (ℕ × List ℕ))
        → AreOptions order bytes.now options → HasBytes 1 (value_of IF_TSRESOL options) → ⊥ }
{
    match option_value(order, bytes, IF_TSRESOL)? {
        None => Ok(6),
        Some(value) if value.len() == 1 => Ok(value[0]),
        Some(_) => Err(CaptureFault::Bad),
    }
}

/// How many seconds are added to each time, by these options: none, if they don't say.
fn offset_in(order: ByteOrder, bytes: &[u8]) -> Result<i64, CaptureFault>
    ensures range { IfOk result (λ offset. FitsSigned w64 offset) }
    ensures ok { IfOk result (λ offset. (options : List (ℕ × List ℕ))
        × AreOptions order bytes.now options × HasBytes 8 (value_of IF_TSOFFSET options)
        × (offset ≡ offset_told order (value_of IF_TSOFFSET options))) }
    ensures err { IfErr result (λ fault. fault ≡ CaptureFault.Bad) }
    ensures none { IsErr result → (options : List (ℕ × List ℕ))
        → AreOptions order bytes.now options → HasBytes 8 (value_of IF_TSOFFSET options) → ⊥ }
{
    match option_value(order, bytes, IF_TSOFFSET)? {
        None => Ok(0),
        Some(value) if value.len() == 8 => Ok(number_at(order, value, 0, 8).cast_signed()),
        Some(_) => Err(CaptureFault::Bad),
    }
}
