//! `show`: the one written spelling of a setup.

ghost use Rattle.std.specs.Prelude.{◌≡◌, IfOk, IfSome};
ghost use Rattle.fb_edge.specs.Outside.{Rose};
ghost use Rattle.fb_cli.specs.Command.{AreSetup};
ghost use Rattle.fb_cli.specs.Show.{show};
ghost use Rattle.setup_text.specs.Writing.{written_setup};
ghost use Rattle.fb_cli.specs.Replies.{Comes, Gives, Ready};

use crate::answers::{Answer, Outcome, Refusal, Reply};
use crate::opening::open_setup;
use crate::seen::Seen;
use fb_edge::Shelf;
use fb_text::Text;
use no_memory::NoMemory;
use setup_text::{Setup, write_setup};
use std::alloc::Global;

#[cfg(test)]
mod tests;

/// The written spelling of a setup.
pub fn written(alloc: Global, setup: &Setup) -> Reply
    ensures { Gives (λ o. o ≡ record { status = 0; text = written_setup setup.now }) (λ role. ⊥)
        result }
{
    let mut text = Text::new(alloc);
    match write_setup(setup, &mut text) {
        Ok(()) => Reply::Answered(Answer::Said {
            outcome: Outcome::Done,
            text,
        }),
        Err(NoMemory) => Reply::Refused(Refusal::NoMemory),
    }
}

/// The setup of a file.
pub fn ready<F: Shelf>(
    alloc: Global,
    name: &str,
    shelf: &mut F,
    seen: &mut Seen,
) -> Result<Setup, Reply>
    ensures ready { Ready (show name.now) (F.file shelf.old)
        (Rose (F.faults shelf.old) (F.faults shelf.new)) result }
    ensures setup { IfOk result
        (λ setup. IfSome (F.file shelf.old) (λ file. AreSetup setup (file name.now))) }
{
    match open_setup(alloc, name, shelf, seen) {
        Ok(setup) => Ok(setup),
        Err(reply) => Err(reply),
    }
}

/// Does `show`.
pub fn show<F: Shelf>(alloc: Global, name: &str, shelf: &mut F) -> Reply
    ensures { Comes (show name.now) (F.file shelf.old)
        (Rose (F.faults shelf.old) (F.faults shelf.new)) result }
{
    match ready(alloc, name, shelf, &mut Seen::nothing(alloc)) {
        Ok(setup) => written(alloc, &setup),
        Err(reply) => reply,
    }
}
