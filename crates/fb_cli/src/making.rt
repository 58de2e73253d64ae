//! `make`: the written spelling of the generated setup of a number.

ghost use Rattle.std.specs.Prelude.{None};
ghost use Rattle.fb_cli.specs.Fileless.{make};
ghost use Rattle.fb_cli.specs.Replies.{Comes};

use crate::answers::{Refusal, Reply};
use crate::showing::written;
use generator::make_setup;
use no_memory::NoMemory;
use std::alloc::Global;

#[cfg(test)]
mod tests;

/// Does `make`. It opens no file, so its answer is known whatever is known of the files.
pub fn make(alloc: Global, seed: u64) -> Reply
    ensures { Comes (make seed) None ⊥ result }
{
    match make_setup(alloc, seed) {
        Ok(setup) => written(alloc, &setup),
        Err(NoMemory) => Reply::Refused(Refusal::NoMemory),
    }
}
