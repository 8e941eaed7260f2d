//! The texts of refusals that no program prints.
use crate::same::same;
use daq_store::{BadLimits, Refusal};
use xcp_base::ErrCode;

#[test]
fn a_refusal_says_why(rt: HostRuntime) {
    let refused = format!(in rt.alloc(); "{}", Refusal::Code(ErrCode::DaqActive));
    let refused = refused.expect(&rt, "memory");
    same(
        &rt,
        refused.as_str(),
        "refused: DaqActive",
        "a code",
        "the text",
    );
    let memory = format!(in rt.alloc(); "{}", Refusal::Memory).expect(&rt, "memory");
    same(&rt, memory.as_str(), "out of memory", "memory", "the text");
    let limits = format!(in rt.alloc(); "{BadLimits}").expect(&rt, "memory");
    let wanted = "event channels, image length or timestamp size out of their limits";
    same(&rt, limits.as_str(), wanted, "limits", "the text");
}
