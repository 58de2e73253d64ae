//! A setup: the words of memory, whether arbitration is fair, the tables, the boards and their
//! scripts.
#![tactic(auto)]

mod parts;

pub use parts::Setup;
