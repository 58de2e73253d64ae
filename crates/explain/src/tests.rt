//! A few faults of each kind, each with what is said of it.

mod texts;
mod traces;
mod words;
