//! Plays a session.
ghost use Rattle.std.specs.Prelude.{◌≡◌, [], IfOk, OnOk, map};
ghost use Rattle.slave.specs.Standing.{SlaveStandsAfter};
ghost use Rattle.session_file.specs.Inner.{line_data};
ghost use Rattle.session_file.specs.Playing.{AreTasksOf, Does, HasPlayed, IsPlay, lines_of};
ghost use Rattle.session_file.specs.Playing.{sending};

use crate::parts::Parts;
use crate::play_fault::PlayFault;
use crate::played::Played;
use crate::player::Player;
use crate::{Line, SessionFile};
use frame_writer::VecOut;
use session::Profile;
use slave::{OpenFault, Slave};
use std::alloc::{AllocError, Global};

/// Plays a session, line by line, and ends it: the slave hangs up, which throws away what waits,
/// the tasks finish, and what came back is collected.
///
/// Refused with `Profile` if the profile is out of a limit; `Memory` may be answered before that.
pub fn play(alloc: Global, file: SessionFile) -> Result<Played, PlayFault>
    ensures played { IfOk result (λ played. IsPlay file.profile
        (map line_data file.script.items) played.refused played.sent.contents) }
{
    let SessionFile { profile, script } = file;
    play_over(alloc, profile, &script)
}

/// Plays the lines of a script over a slave that is opened with this profile.
pub fn play_over(alloc: Global, profile: Profile, script: &[Line]) -> Result<Played, PlayFault>
    ensures played { IfOk result (λ played. HasPlayed profile (map line_data script.now)
        played.refused played.sent.contents) }
{
    let mut player = open(alloc, profile)?;
    let Ok(()) = play_all(&mut player, alloc, script) else {
        return Err(PlayFault::Memory);
    };
    player.finish(alloc)
}

/// A slave that was just opened, its tasks, and nothing that came of a line.
fn open(alloc: Global, profile: Profile) -> Result<Player, PlayFault>
    ensures stands { IfOk result (λ player. SlaveStandsAfter profile player.slave []) }
    ensures none_sent { IfOk result (λ player. player.out.contents ≡ []) }
    ensures none_refused { IfOk result (λ player. player.refused ≡ 0) }
    ensures tasks { IfOk result (λ player. AreTasksOf player.slave player.tasks.items) }
{
    let segments = profile.segments.clone()?;
    match Slave::open(alloc, profile) {
        Ok((slave, tasks)) => Ok(Player {
            slave,
            tasks,
            segments,
            clock: 0,
            memory: Vec::new(alloc),
            out: VecOut::new(alloc),
            ends: Vec::new(alloc),
            parts: Parts::new(alloc),
            refused: 0,
        }),
        Err(fault) => Err(fault_of(fault)),
    }
}

/// Why a session isn't played whose slave was not opened.
fn fault_of(fault: OpenFault) -> PlayFault {
    match fault {
        OpenFault::Profile(fault) => PlayFault::Profile(fault),
        OpenFault::Memory => PlayFault::Memory,
    }
}

/// Plays lines, one after another.
fn play_all(player: &mut Player, alloc: Global, script: &[Line]) -> Result<(), AllocError>
    requires none_refused { player.old.refused ≡ 0 }
    ensures does { OnOk result (Does (sending player.old.slave player.old.out.contents)
        (sending player.new.slave player.new.out.contents)
        player.old.refused player.new.refused (map line_data script.now)) }
    ensures tasks { lines_of player.new.tasks.items ≡ lines_of player.old.tasks.items }
{
    for line in script {
        player.line(alloc, line)?;
    }
    Ok(())
}
