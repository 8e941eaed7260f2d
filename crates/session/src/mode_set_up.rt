//! The mode of a DAQ list, kept to be compared with a later one.
ghost use Rattle.std.specs.Prelude.{◌≡◌, ◌↔◌, true};
ghost use Rattle.session.specs.SetUps.{but_priority, mode_held};

use daq_store::ListConf;

/// The mode of a DAQ list, but for its priority.
#[derive(Clone, Copy, PartialEq, Eq)]
pub struct ModeSetUp {
    pub channel: u8,
    pub prescaler: u8,
    pub stamped: bool,
}

/// That of a list, if a mode was set: a mode has a prescaler of at least 1.
pub fn mode_of(conf: &ListConf) -> Option<ModeSetUp>
    ensures value { mode_held result ≡ but_priority conf.now.mode }
{
    let prescaler = conf.prescaler();
    if prescaler == 0 {
        return None;
    }
    Some(ModeSetUp {
        channel: conf.channel(),
        prescaler,
        stamped: conf.stamped(),
    })
}

/// Whether two modes are the same.
pub fn is_same_mode(a: Option<ModeSetUp>, b: Option<ModeSetUp>) -> bool
    ensures value { (result ≡ true) ↔ (mode_held a ≡ mode_held b) }
{
    a == b
}
