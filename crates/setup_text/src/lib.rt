//! The texts of setups, of tables and of schedules.
#![tactic(auto)]

mod alone;
mod board_line;
mod book;
mod draft;
mod fault;
mod laws;
mod names;
mod reading;
mod schedule;
mod table_lines;
mod tables;
mod words;
mod writing;

pub use alone::read_table_alone;
pub use book::read_book;
pub use fault::{LimitOf, SetupFault, SetupKind};
pub use laws::{book_faults_are_first, schedule_faults_are_first, setup_faults_are_first};
pub use no_memory::NoMemory;
pub use reading::read_setup;
pub use schedule::read_schedule;
pub use setup::Setup;
pub use writing::write_setup;

#[cfg(test)]
mod tests;
#[cfg(test)]
mod writing_tests;
