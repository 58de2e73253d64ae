//! Replaying a trace on a machine.
//!
//! A trace is accepted exactly where its lines are those of a complete run of the machine's setup.
//! It may come in pieces, cut anywhere. No call here takes memory.
#![tactic(auto)]

mod fault;
mod laws;
mod pieces;
mod reader;
mod stage;
mod steps;
mod whole;

pub use fault::ReplayFault;
pub use laws::printed_events_are_traces;
pub use pieces::Replay;
pub use reader::{Found, Reader, first_line};
pub use whole::replay;
