//! What an audit may find.

use bus_signals::LineNo;

/// What is wrong after an event: a reply is not the latest word; or, of a line, two boards own it, a
/// copy that is to be alone is not, a copy has other words than the latest, or memory has them
/// although no board owns the line.
#[derive(Clone, Copy, Debug, PartialEq, Eq)]
pub enum Harm {
    Reply,
    Owners,
    Shared,
    Words,
    Memory,
}

/// The event, numbered from 1, after which there is a harm, and the line of the harm.
#[derive(Clone, Copy, Debug, PartialEq, Eq)]
pub struct Finding {
    pub event: u32,
    pub harm: Harm,
    pub line: LineNo,
}
