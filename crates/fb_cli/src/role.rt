//! What a file is to a command.

/// What a file is to a command.
#[derive(Clone, Copy, Debug, PartialEq, Eq)]
pub enum Role {
    Setup,
    Schedule,
    Trace,
}
