//! A text that is collected in memory.

ghost use Rattle.std.specs.Prelude.{◌≡◌, ◌<◌, ◌≤◌, [], Some, length, IfOk};
ghost use Rattle.std.specs.Io.KnownBytes.{WriteAppends};
ghost use Rattle.fb_edge.specs.Outside.{HasCause};

use fb_edge::{PutFailed, Sink};
use std::alloc::Global;
use std::marker::Model;

/// Takes all bytes, as long as there is memory for them.
#[derive(Drop)]
pub struct Collected {
    text: Vec<u8>,
    faults: u64,
}

impl Model for Collected {
    ghost use Rattle.futurebus_c.specs.Collected.{Collected};

    ghost Value = { Collected };

    ghost view = { λ c. record { text = c.text.items; faults = c.faults } };
}

impl Collected {
    /// Nothing was taken.
    pub fn new(alloc: Global) -> Collected
        ensures { result.text ≡ [] }
    {
        Collected {
            text: Vec::new(alloc),
            faults: 0,
        }
    }

    /// What was taken.
    pub fn text(&self) -> &[u8]
        ensures { result.now ≡ self.now.text }
    {
        &self.text
    }
}

impl Sink for Collected {
    ghost taken = { λ c. Some c.text };

    ghost faults = { λ c. c.faults };

    fn put(&mut self, piece: &[u8]) -> Result<usize, PutFailed> {
        match self.text.extend_from_slice(piece) {
            Ok(()) => Ok(piece.len()),
            Err(_) => {
                self.faults = self.faults.saturating_add(1);
                Err(PutFailed)
            }
        }
    }
}
