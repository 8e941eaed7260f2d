//! The steps of a run: trigger, start, stop and pump.
/// A step of a run. The image of a trigger is lent by the run.
#[derive(Clone, Copy, Debug, PartialEq, Eq)]
pub enum Step<'a> {
    /// A trigger of an event channel.
    Trigger {
        channel: u8,
        stamp: u32,
        image: &'a [u8],
    },
    /// The start of a DAQ list by the sampler of an event channel.
    Start {
        channel: u8,
        list: u8,
    },
    /// The stop of a DAQ list by the sampler of an event channel.
    Stop {
        channel: u8,
        list: u8,
    },
    /// The pump step.
    Pump,
}
