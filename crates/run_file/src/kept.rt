//! Steps as a run keeps them, apart from the bytes of their images.
/// What a step does, without the image of a trigger.
#[derive(Clone, Copy)]
pub enum Action {
    Trigger { channel: u8, stamp: u32 },
    Start { channel: u8, list: u8 },
    Stop { channel: u8, list: u8 },
    Pump,
}

/// A step as a run keeps it: what it does, and where its image begins. The images of all steps
/// stand one behind another in one place; that of a step which is no trigger has no byte.
#[derive(Clone, Copy)]
pub struct Kept {
    pub(crate) action: Action,
    pub(crate) from: usize,
}
