//! The limits of a value.
/// The least and the greatest physical value that is to be expected (ASAM MCD-2 MC, LowerLimit and
/// UpperLimit; ASAM MDF 4.1, cn_limit_min and cn_limit_max).
#[derive(Clone, Copy, Debug)]
pub struct ValueLimits {
    pub least: f64,
    pub greatest: f64,
}
