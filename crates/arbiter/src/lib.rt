//! Arbitration: how the lines settle, and who is granted the bus.
#![tactic(auto)]

mod contest;
mod requests;
mod steps;

pub use contest::{Settled, settle};
pub use requests::{Grant, Requests};
pub use steps::Steps;

#[cfg(test)]
mod tests;
