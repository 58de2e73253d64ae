//! What is said of words that ask for no command.

use crate::commands::{Command, NAMES};
use crate::nearest::say_guess;
use crate::numbers::say_number;
use crate::say::{choices, say};
use fb_text::Text;
use no_memory::NoMemory;
use std::alloc::Global;

/// The names of the tables of the library.
const TABLES: [&str; 6] = ["cb", "up", "wt", "wb", "ex", "un"];

/// Appends that there is no command of this name, and those that there are.
fn say_no_command(text: &mut Text, word: &str) -> Result<(), NoMemory> {
    say(text, word)?;
    say(text, " is no command. The commands are ")?;
    choices(text, &NAMES)?;
    say(text, ".\n")?;
    say_guess(text, word.as_bytes(), &NAMES)
}

/// Appends that the library has no table of this name, and those that it has.
fn say_no_table(text: &mut Text, word: &str) -> Result<(), NoMemory> {
    say(text, "The library has no table ")?;
    say(text, word)?;
    say(text, ". It has ")?;
    choices(text, &TABLES)?;
    say(text, ".\n")?;
    say_guess(text, word.as_bytes(), &TABLES)
}

/// Appends what is wrong with the words of a command that are as many as it takes, where it is one
/// of them.
fn say_last(text: &mut Text, command: Command, words: &[String]) -> Result<(), NoMemory> {
    match (command, words) {
        (Command::Make | Command::Tally | Command::Exhibit, [number]) => {
            say_number(text, number.as_str().as_bytes())
        }
        (Command::Help, [name]) => say_no_command(text, name.as_str()),
        (Command::Library, [name]) => say_no_table(text, name.as_str()),
        (Command::Run | Command::Traffic | Command::Audit, [_, seed, number]) => {
            if seed.as_str() == "seed" {
                return say_number(text, number.as_str().as_bytes());
            }
            say(text, seed.as_str())?;
            say(text, " cannot stand here.\n")
        }
        _ => Ok(()),
    }
}

/// Appends which of the words after a command's name is wrong.
fn say_wrong_word(text: &mut Text, command: Command, words: &[String]) -> Result<(), NoMemory> {
    let (least, most) = command.counts();
    if words.len() < least {
        return say(text, "A word is missing.\n");
    }
    match words.get(most) {
        Some(word) => {
            say(text, word.as_str())?;
            say(text, " is one word too many.\n")
        }
        None => say_last(text, command, words),
    }
}

/// Appends what a command takes, and which of the words after its name is wrong.
fn say_command(text: &mut Text, command: Command, words: &[String]) -> Result<(), NoMemory> {
    say_wrong_word(text, command, words)?;
    say(text, "Expected: ")?;
    say(text, command.form())?;
    say(text, ".\n")
}

/// Why words ask for no command.
pub fn words_reason(alloc: Global, words: &[String]) -> Result<Text, NoMemory> {
    let mut text = Text::new(alloc);
    match words {
        [] => {
            say(&mut text, "There is no command. The commands are ")?;
            choices(&mut text, &NAMES)?;
            say(&mut text, ".\n")?;
        }
        [first, rest @ ..] => match Command::named(first.as_str()) {
            Some(command) => say_command(&mut text, command, rest)?,
            None => say_no_command(&mut text, first.as_str())?,
        },
    }
    Ok(text)
}
