//! Why a command is refused: the line and the word at fault, and what may stand there.
#![tactic(auto)]

mod asked;
mod commands;
mod expected;
mod explaining;
mod fault;
mod files;
mod line;
mod nearest;
mod numbers;
mod permitted;
mod reader;
mod refusals;
mod replayed;
mod say;
mod seen;
mod sentences;
mod setup_lines;
mod shown;
mod spelled;
mod tables;
mod texts;
mod trace;
mod verdict;
mod wanted;

pub use explaining::{
    explain_alone, explain_length, explain_schedule, explain_setup, explain_tables, explain_trace,
    explain_unread, explain_words,
};
pub use no_memory::NoMemory;

#[cfg(test)]
mod tests;
