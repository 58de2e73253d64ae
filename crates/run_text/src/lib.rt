//! The text of a run, as it is printed: the line of each event, `end`, the replies to reads, the
//! memory and the copies.
//!
//! ```text
//! answer BOARD PLACE ADDR VALUE
//! memory LINE W W W W
//! copy BOARD LINE STATE W W W W
//! ```
//!
//! The replies come board by board in the order of their scripts, PLACE being the place of the
//! access in the script from 1; then each line of memory; then the copies board by board in order
//! of line. Lines wait in a page on the stack, which is written when it has no room for one more,
//! and at the end. No call here takes memory.
#![tactic(auto)]

mod laws;
mod lines;
mod page;
mod printer;
mod run;
mod spelling;
#[cfg(test)]
mod tests;

pub use laws::run_texts_fit;
pub use lines::{write_copy, write_memory, write_reply};
pub use run::{print_ending, print_events, print_run};
pub use spelling::{is_typed, runs_are_spelled, steps_are_spelled};
