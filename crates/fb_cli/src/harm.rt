//! What an audit found, in plain words.

ghost use Rattle.explain.specs.Extends.{Extends};

use audit::{Finding, Harm};
use fb_text::Text;
use no_memory::NoMemory;
use std::alloc::Global;

/// Appends words, a number and words.
fn counted(text: &mut Text, before: &str, value: u32, after: &str) -> Result<(), NoMemory> {
    text.reserve(before.len())?;
    text.push(before.as_bytes());
    text.reserve(20)?;
    text.number(u64::from(value));
    text.reserve(after.len())?;
    text.push(after.as_bytes());
    Ok(())
}

/// The words before and after the line of a harm, in the sentence that tells it.
fn words_of(harm: Harm) -> (&'static str, &'static str) {
    match harm {
        Harm::Reply => ("a read of line ", " got a word that is not the latest.\n"),
        Harm::Owners => ("two boards own line ", ": each has it in M or O.\n"),
        Harm::Shared => ("a board has line ", " in M or E, and another has a copy.\n"),
        Harm::Words => ("a copy of line ", " does not have the latest words.\n"),
        Harm::Memory => (
            "memory does not have the latest words of line ",
            ", and no board owns it.\n",
        ),
    }
}

/// What was found, in plain words.
fn reason(alloc: Global, finding: Finding) -> Result<Text, NoMemory> {
    let (before, after) = words_of(finding.harm);
    let mut text = Text::new(alloc);
    counted(&mut text, "After event ", finding.event, " ")?;
    counted(&mut text, before, finding.line.0, after)?;
    Ok(text)
}

/// Appends in plain words what was found.
pub fn explain_harm(alloc: Global, finding: Finding, text: &mut Text) -> Result<(), NoMemory>
    ensures { Extends text.old.bytes text.new.bytes }
{
    let reason = reason(alloc, finding)?;
    text.reserve(reason.bytes().len())?;
    text.push(reason.bytes());
    Ok(())
}
