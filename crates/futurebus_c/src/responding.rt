//! A command over lent texts, and its text in the caller's buffer.

ghost use Rattle.std.specs.Prelude.{◌≡◌, ℕ, List, IfOk, map, string_bytes};
ghost use Rattle.fb_cli.specs.Output.{Output};
ghost use Rattle.futurebus_c.specs.Texts.{files_of};
ghost use Rattle.futurebus_c.specs.Given.{Answered, Gives};

use crate::answer::FbAnswer;
use crate::collected::Collected;
use crate::texts::Texts;
use fb_cli::plain;
use no_memory::NoMemory;
use std::alloc::Global;

/// The status and the text where memory ran out.
const NO_MEMORY: u8 = 6;

const NO_MEMORY_TEXT: &[u8] = b"fault memory\n";

/// The status where the buffer is too short.
const TOO_SHORT: u8 = 5;

/// Copies a text into a buffer, as far as it has room.
fn give(status: u8, text: &[u8], buffer: &mut [u8]) -> FbAnswer
    ensures { Gives (record { status = status; text = text.now }) buffer.new result.status
        result.count }
{
    let count = text.len().min(buffer.len());
    buffer[..count].copy_from_slice(&text[..count]);
    let fits = text.len() <= buffer.len();
    FbAnswer::of(if fits { status } else { TOO_SHORT }, text.len())
}

/// Does the command of words over two texts.
pub fn respond(
    alloc: Global,
    words: Result<Vec<String>, NoMemory>,
    first: &[u8],
    second: &[u8],
    buffer: &mut [u8],
) -> FbAnswer
    ensures { (asked : List (List ℕ)) → IfOk words (λ w. map string_bytes w.items ≡ asked)
        → Answered asked (files_of first.now second.now) buffer.new result.status result.count }
{
    let Ok(words) = words else {
        return give(NO_MEMORY, NO_MEMORY_TEXT, buffer);
    };
    let mut sink = Collected::new(alloc);
    let status = plain(alloc, &words, &mut Texts::new(first, second), &mut sink);
    if status == TOO_SHORT {
        return give(NO_MEMORY, NO_MEMORY_TEXT, buffer);
    }
    give(status, sink.text(), buffer)
}
