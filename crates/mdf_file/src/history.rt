//! Who wrote a file.
ghost use Rattle.std.specs.Prelude.{◌≡◌, ◌+◌, ◌%◌, ◌<◌, IfOk, Some};
ghost use Rattle.std.specs.Prelude.{[], ◌∷◌, length};
ghost use Rattle.mdf_blocks.specs.Ranges.{FitsTime};
ghost use Rattle.mdf_blocks.specs.Told.{TellsHistories};
ghost use Rattle.mdf_file.specs.Adding.{Adds};

use crate::mdf_fault::MdfFault;
use crate::next_place::next_place;
use crate::texts::add_comment;
use mdf_blocks::{FileHistory, Time, Zone, push_file_history};

/// Adds an entry of the file's history, and gives its place.
pub fn add_history(out: &mut Vec<u8>, base: u64, time: Time, comment: &str) -> Result<u64, MdfFault>
    requires some { 0 < base }
    requires aligned { (base + length out.old.items) % 8 ≡ 0 }
    ensures { IfOk result (λ link. Adds base out.old.items out.new.items (λ bytes.
        TellsHistories bytes link (record { time = time; comment = Some comment.now } ∷ []))) }
{
    read_time(time);
    let comment = add_comment(out, base, comment)?;
    let place = next_place(base, out)?;
    push_file_history(
        out,
        &FileHistory {
            next: 0,
            comment,
            time,
        },
    )?;
    Ok(place)
}

/// What each time fits.
pub fn read_time(time: Time)
    ensures { FitsTime time }
{
    let _ = time.nanoseconds;
    if let Zone::Offsets { zone, daylight } = time.zone {
        let _ = [zone, daylight];
    }
}
