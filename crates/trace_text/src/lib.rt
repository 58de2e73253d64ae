//! The one line of each event, both ways.
//!
//! An event is one line of words with exactly one space between two of them and no blank at its
//! ends, and a line feed:
//!
//! ```text
//! local B STATE to STATE done DONE
//! drop B line L from STATE
//! raise B
//! grant B to B lines N rounds R
//! connect B EVENT line L to RESULT answers ANSWERS
//! data B EVENT line L from SOURCE into TAKERS states STATES done DONE
//! ```
//!
//! B is a board from 1 to 16, L a line from 0 to 4,095, N from 1 to 1,023 and R from 0 to 9. A
//! number is `0`, or digits of which the first is not 0. `specs/Spelling.antt` has the words of
//! each event, and `specs/Ranges.antt` which events are spelled. No line begins another, and none
//! has more than 253 bytes. No call here takes memory.
#![tactic(auto)]

mod lists;
mod pieces;
mod places;
mod reading;
#[cfg(test)]
mod tests;
mod words;
mod writing;

pub use journal::{
    Answer, Answers, Carried, Connected, Done, Event, Places, Source, States, Takers,
};
pub use reading::read_event;
pub use writing::write_event;
