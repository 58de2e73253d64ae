//! What is said of a file that was not read, or that is too long.

use crate::say::{counted, say};
use fb_text::Text;
use no_memory::NoMemory;
use std::alloc::Global;

/// That the file of this name was not read.
pub fn unread_reason(alloc: Global, name: &str, role: &str) -> Result<Text, NoMemory> {
    let mut text = Text::new(alloc);
    say(&mut text, "The file ")?;
    say(&mut text, name)?;
    say(&mut text, ", which is ")?;
    say(&mut text, role)?;
    say(
        &mut text,
        " of this command, was not read. Is its name right, and may it be read?\n",
    )?;
    Ok(text)
}

/// That the file of this name is too long.
pub fn length_reason(
    alloc: Global,
    name: &str,
    length: Option<u64>,
    limit: u64,
) -> Result<Text, NoMemory> {
    let mut text = Text::new(alloc);
    say(&mut text, "The file ")?;
    say(&mut text, name)?;
    match length {
        Some(length) => counted(&mut text, " has ", length, " bytes")?,
        None => say(&mut text, " is too long")?,
    }
    counted(&mut text, "; there may be at most ", limit, " bytes.\n")?;
    Ok(text)
}
