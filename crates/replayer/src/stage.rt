//! How far a replay has come.

use crate::fault::ReplayFault;

/// How far a replay has come.
#[derive(Clone, Copy, Debug, PartialEq, Eq)]
pub enum Stage {
    /// More lines are read.
    Reading,
    /// The line `end` was read.
    Ended,
    /// A line was at fault.
    Refused(ReplayFault),
}
