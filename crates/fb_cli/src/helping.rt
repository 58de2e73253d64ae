//! `help` and `version`: what the program says of itself.

ghost use Rattle.std.specs.Prelude.{◌≡◌, None, IfOk};
ghost use Rattle.fb_cli.specs.Command.{printing};
ghost use Rattle.fb_cli.specs.Replies.{Comes, answer_output};

use crate::answers::{Answer, Outcome, Reply};
use fb_text::Text;
use no_memory::NoMemory;
use std::alloc::Global;

#[cfg(test)]
mod tests;

/// What prints these words.
fn saying(alloc: Global, words: &str) -> Result<Answer, NoMemory>
    ensures { IfOk result (λ answer.
        answer_output answer ≡ record { status = 0; text = words.now }) }
{
    let mut text = Text::new(alloc);
    text.reserve(words.len())?;
    text.push(words.as_bytes());
    Ok(Answer::Said {
        outcome: Outcome::Done,
        text,
    })
}

/// Prints these words. It opens no file, so its answer is known whatever is known of the files.
pub fn say(alloc: Global, words: &str) -> Reply
    ensures { Comes (printing words.now) None ⊥ result }
{
    Reply::of(saying(alloc, words))
}
