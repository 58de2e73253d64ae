//! How much a machine has room for.

/// How many events, replies and rows the machine of a setup has room for. A row needs a frame.
#[derive(Clone, Copy, Debug, PartialEq, Eq)]
pub struct Need {
    pub events: u32,
    pub replies: u32,
    pub frames: u32,
}
