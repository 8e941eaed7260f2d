//! The text of a fault that no run meets.
use crate::same::same;
use daq_run::SimFault;

#[test]
fn a_lost_end_has_its_text(rt: HostRuntime) {
    let text = format!(in rt.alloc(); "{}", SimFault::EndLost).expect(&rt, "memory");
    same(&rt, text.as_str(), "sampler end lost", "an end", "the text");
}
