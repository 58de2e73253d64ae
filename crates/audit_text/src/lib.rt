//! The text of an audit: the line of each event, as in a run, and a line that tells what was found.
//!
//! ```text
//! sound EVENTS
//! unsound EVENT HARM LINE
//! ```
//!
//! EVENT is the number of the event after which there is a harm, counted from 1, and LINE the line
//! of memory that is harmed. HARM is one of `reply`, `owners`, `shared`, `words` and `memory`.
#![tactic(auto)]

mod laws;
#[cfg(test)]
mod tests;
mod verdict;

pub use laws::audits_are_spelled;
pub use verdict::write_verdict;
