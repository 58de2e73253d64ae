//! The frames that all caches share: a fixed number of lines of words, each free or out.
#![tactic(auto)]

mod order;
mod pool;

pub use no_memory::NoMemory;
pub use pool::{FrameNo, LinePool, frames_are_free_or_out};

#[cfg(test)]
mod tests;
