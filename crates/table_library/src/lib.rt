//! Tables of known protocols, the largest part of a table that is in the class, and what a run
//! moved on the bus.
#![tactic(auto)]

mod answering;
mod counting;
mod counts;
mod filling;
mod fitting;
mod kinds;
mod laws;
mod lines;
mod narrowing;
mod protocols;
mod report;
mod state_set;
mod tables;
#[cfg(test)]
mod tests;

pub use counting::traffic;
pub use counts::Counts;
pub use filling::{Cells, filled_table, push_answer, push_local};
pub use kinds::{KINDS, Kind, kind_of};
pub use laws::kept_states_are_greatest;
pub use lines::write_traffic;
pub use narrowing::narrow;
pub use no_memory::NoMemory;
pub use report::Traffic;
pub use tables::{library, table_of};
