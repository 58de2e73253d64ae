//! The texts that a caller lends, as a shelf of files.

ghost use Rattle.std.specs.Prelude.{◌≡◌, ◌<◌, Some, length, IfOk, Ok};
ghost use Rattle.std.specs.Io.{ReadsAtMost};
ghost use Rattle.std.specs.Io.KnownBytes.{ReadConsumes};
ghost use Rattle.fb_edge.specs.Outside.{Begins, HasCause};
ghost use Rattle.futurebus_c.specs.Texts.{files_of};

use fb_edge::{Shelf, ShelfFailed};
use std::marker::Model;

/// The names of the two texts.
pub const FIRST: &str = "first";

pub const SECOND: &str = "second";

/// Two texts, one of which is being read.
#[derive(Drop)]
pub struct Texts<'a> {
    first: &'a [u8],
    second: &'a [u8],
    rest: &'a [u8],
}

impl<'a> Model for Texts<'a> {
    ghost use Rattle.futurebus_c.specs.Texts.{Texts};

    ghost Value = { Texts };

    ghost view = { λ t. record { first = t.first.now; second = t.second.now; rest = t.rest.now } };
}

impl<'a> Texts<'a> {
    /// No text is started.
    pub fn new(first: &'a [u8], second: &'a [u8]) -> Texts<'a>
        ensures first { result.first ≡ first.now }
        ensures second { result.second ≡ second.now }
    {
        Texts {
            first,
            second,
            rest: &[],
        }
    }
}

impl<'a> Shelf for Texts<'a> {
    ghost file = { λ t. Some (files_of t.first t.second) };

    ghost rest = { λ t. Some t.rest };

    ghost faults = { λ _. 0 };

    fn start(&mut self, name: &str) -> Result<(), ShelfFailed> {
        if name == FIRST {
            self.rest = self.first;
        } else if name == SECOND {
            self.rest = self.second;
        } else {
            self.rest = &[];
        }
        Ok(())
    }

    fn next(&mut self, into: &mut [u8]) -> Result<usize, ShelfFailed> {
        let count = into.len().min(self.rest.len());
        let (front, rest) = self.rest.split_at(count);
        into[..count].copy_from_slice(front);
        self.rest = rest;
        Ok(count)
    }
}
