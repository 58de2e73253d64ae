//! The words of states, outcomes and events, both ways. They are the same in tables, in traces and
//! in reports.
#![tactic(auto)]

mod reading;
#[cfg(test)]
mod tests;
mod writing;

pub use reading::{bus_event_of, is, local_event_of, outcome_of, state_of};
pub use writing::{bus_event_text, local_event_text, state_text};
