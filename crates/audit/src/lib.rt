//! The auditor: it runs any tables, accepted or not, and names the first harm that they do.
#![tactic(auto)]

mod arbitration;
mod audited;
mod auditing;
mod carrying;
mod copies;
mod course;
mod effects;
mod exhibits;
mod finding;
mod grants;
mod harms;
mod laws;
mod parts;
mod phase;
mod picks;
mod room;
mod seats;
mod turning;

pub use audited::Audit;
pub use auditing::audit;
pub use exhibits::exhibit;
pub use finding::{Finding, Harm};
pub use laws::{findings_are_first, nothing_found_is_sound};
pub use no_memory::NoMemory;

#[cfg(test)]
mod tests;
