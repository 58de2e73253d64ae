//! Words and numbers of a line that have to be there.

use crate::fault::{Quantity, Stop, Wanted, Why, at};
use crate::reader::{Reader, Word};
use class_relation::Name;
use class_words::is;
use fb_text::number_within;

/// The next word, where the line has one.
pub fn some_word<'a>(reader: &mut Reader<'a>, wanted: Wanted) -> Result<Word<'a>, Stop<'a>> {
    match reader.next_word() {
        Some(word) => Ok(word),
        None => Err(at(reader, None, Why::Expected(wanted))),
    }
}

/// Reads this word.
pub fn this_word<'a>(reader: &mut Reader<'a>, text: &'static str) -> Result<(), Stop<'a>> {
    let word = reader.next_word();
    match word {
        Some(found) if is(found.bytes, text) => Ok(()),
        _ => Err(at(reader, word, Why::Expected(Wanted::Word(text)))),
    }
}

/// Checks that the line has no more words.
pub fn line_end<'a>(reader: &mut Reader<'a>) -> Result<(), Stop<'a>> {
    let word = reader.next_word();
    match word {
        Some(_) => Err(at(reader, word, Why::Expected(Wanted::LineEnd))),
        None => Ok(()),
    }
}

/// Reads a name.
pub fn name<'a>(reader: &mut Reader<'a>) -> Result<Word<'a>, Stop<'a>> {
    let word = some_word(reader, Wanted::Name)?;
    match Name::of(word.bytes) {
        Some(_) => Ok(word),
        None => Err(at(reader, Some(word), Why::Expected(Wanted::Name))),
    }
}

/// Reads a number from `least` to `most`, and the word that it is.
pub fn number<'a>(
    reader: &mut Reader<'a>,
    of: Quantity,
    least: u64,
    most: u64,
) -> Result<(u64, Word<'a>), Stop<'a>> {
    let found = reader.next_word();
    let why = Why::Number { of, least, most };
    let Some(word) = found else {
        return Err(at(reader, None, why));
    };
    match number_within(Some(word.bytes), most) {
        Ok(value) if value >= least => Ok((value, word)),
        _ => Err(at(reader, Some(word), why)),
    }
}
