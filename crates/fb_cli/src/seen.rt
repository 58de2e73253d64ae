//! What was read of the files of a command, kept for an explanation.

ghost use Rattle.std.specs.Prelude.{◌≡◌, ◌≤◌};

use crate::role::Role;
use fb_edge::Shelf;
use std::alloc::Global;

/// The most bytes that are read at once, and the most reads of a file that is too long.
const PIECE: usize = 4096;

const READS: u32 = 1_048_576;

/// The files of a command as they were read. A command that is done keeps none.
#[derive(Drop)]
pub struct Seen {
    pub keeps: bool,
    /// The file that was opened last.
    pub last: Role,
    /// How long that file is, where it is longer than its limit and this is known.
    pub length: Option<u64>,
    pub setup: Vec<u8>,
    /// The schedule or the trace.
    pub other: Vec<u8>,
}

impl Seen {
    /// Nothing is kept.
    pub fn nothing(alloc: Global) -> Seen {
        Seen::of(alloc, false)
    }

    /// What is read from here on is kept.
    pub fn all(alloc: Global) -> Seen {
        Seen::of(alloc, true)
    }

    fn of(alloc: Global, keeps: bool) -> Seen {
        Seen {
            keeps,
            last: Role::Setup,
            length: None,
            setup: Vec::new(alloc),
            other: Vec::new(alloc),
        }
    }

    /// Counts the bytes of a file of which this many were taken, to its end.
    pub fn measure<F: Shelf>(&mut self, shelf: &mut F, taken: u64)
        ensures later { F.faults shelf.old ≤ F.faults shelf.new }
        ensures file { F.file shelf.new ≡ F.file shelf.old }
    {
        let mut piece = [0u8; PIECE];
        let mut length = taken;
        for _read in 0..READS {
            match shelf.next(&mut piece) {
                Ok(0) => {
                    self.length = Some(length);
                    return;
                }
                Ok(count) => length = length.saturating_add(count as u64),
                Err(_) => return,
            }
        }
    }

    /// Keeps a file.
    pub fn keep(&mut self, role: Role, bytes: Vec<u8>) {
        if self.keeps {
            match role {
                Role::Setup => self.setup = bytes,
                Role::Schedule | Role::Trace => self.other = bytes,
            }
        }
    }
}
