//! `exhibit`: a setup that does harm, audited.

ghost use Rattle.std.specs.Prelude.{◌≡◌, ◌≤◌, [], None, IfOk};
ghost use Rattle.audit_text.specs.AuditText.{audit_text};
ghost use Rattle.fb_cli.specs.Audit.{exhibit, exhibited};
ghost use Rattle.fb_cli.specs.Replies.{Comes, Ready, told_output};

use crate::answers::{Answer, Refusal, Reply};
use crate::auditing::judge_turns;
use crate::role::Role;
use crate::seen::Seen;
use crate::told::Told;
use fb_text::Text;
use no_memory::NoMemory;
use setup::Setup;
use setup_text::write_setup;
use std::alloc::Global;

#[cfg(test)]
mod tests;

/// Keeps the written spelling of a setup, where it is wanted and there is memory for it.
fn keep_spelling(alloc: Global, setup: &Setup, seen: &mut Seen) {
    if !seen.keeps {
        return;
    }
    let mut text = Text::new(alloc);
    if let Ok(()) = write_setup(setup, &mut text) {
        if let Ok(bytes) = text.bytes().to_vec(alloc) {
            seen.keep(Role::Setup, bytes);
        }
    }
}

/// The audit of the exhibit of a number, from 1, where no event does harm. Where one does, the
/// command stops with it.
pub fn ready(alloc: Global, number: u8, seen: &mut Seen) -> Result<Told, Reply>
    requires low { 1 ≤ number }
    requires high { number ≤ 12 }
    ensures ready { Ready (exhibit number) None ⊥ result }
    ensures output { IfOk result (λ told.
        told_output told ≡ record { status = 0; text = audit_text (exhibited number) }) }
{
    match audit::exhibit(alloc, number) {
        Ok((setup, turns)) => {
            keep_spelling(alloc, &setup, seen);
            judge_turns(alloc, setup, &turns)
        }
        Err(NoMemory) => Err(Reply::Refused(Refusal::NoMemory)),
    }
}

/// Does `exhibit`. It opens no file, so its answer is known whatever is known of the files.
pub fn exhibit(alloc: Global, number: u8) -> Reply
    requires low { 1 ≤ number }
    requires high { number ≤ 12 }
    ensures { Comes (exhibit number) None ⊥ result }
{
    match ready(alloc, number, &mut Seen::nothing(alloc)) {
        Ok(told) => Reply::Answered(Answer::Audited(told)),
        Err(reply) => reply,
    }
}
