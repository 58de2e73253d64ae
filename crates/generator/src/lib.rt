//! Generated input: a setup for each number, and a schedule for each number.
//!
//! Both are drawn from the words of the generator `Lcg64Xsh32` made of the number.
//! `specs/Generated.antt` has the setup, and `specs/Schedule.antt` the schedule.
#![tactic(auto)]

mod laws;
mod make;
mod rows;
mod tables;
#[cfg(test)]
mod tests;
mod turns;
mod words;

pub use laws::generated_setups_are_accepted;
pub use make::make_setup;
pub use no_memory::NoMemory;
pub use turns::SeededTurns;
