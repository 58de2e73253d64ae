//! The line of a fault with a caret, and the bytes that cannot be shown.

use crate::fault::{Fault, Spot};
use crate::reader::without_comment;
use crate::say::{counted, number, put, say};
use fb_text::Text;
use no_memory::NoMemory;

/// Whether a byte can be shown in a line.
fn is_shown(byte: u8) -> bool {
    byte == b'\t' || (b' ' <= byte && byte <= b'~')
}

/// A line without the carriage return at its end.
fn without_return(line: &[u8]) -> &[u8] {
    match line {
        [before @ .., b'\r'] => before,
        _ => line,
    }
}

/// Appends the same byte so many times.
fn repeat(text: &mut Text, byte: u8, times: usize) -> Result<(), NoMemory> {
    for _ in 0..times {
        put(text, &[byte])?;
    }
    Ok(())
}

/// Appends blanks as wide as the first bytes of a line, with its tabs.
fn indent(text: &mut Text, line: &[u8], width: usize) -> Result<(), NoMemory> {
    for place in 0..width {
        match line.get(place) {
            Some(b'\t') => put(text, b"\t")?,
            _ => put(text, b" ")?,
        }
    }
    Ok(())
}

/// Whether the words of a line can be shown. Its comment may have any bytes.
pub fn can_be_shown(line: &[u8]) -> bool {
    let words = without_comment(without_return(line));
    words.iter().all(|byte| is_shown(*byte))
}

/// Appends the line of a fault, and carets under the word at fault.
pub fn show(text: &mut Text, fault: &Fault) -> Result<(), NoMemory> {
    let (before, width) = match fault.spot {
        Spot::Word(word) => (word.before, word.bytes.len()),
        Spot::After(taken) => (taken.saturating_add(1), 1),
        Spot::TextEnd => return Ok(()),
    };
    show_line(text, u64::from(fault.line), fault.whole, before, width)
}

/// Appends a line with its number, and so many carets after its first bytes.
pub fn show_line(
    text: &mut Text,
    value: u64,
    whole: &[u8],
    before: usize,
    width: usize,
) -> Result<(), NoMemory> {
    let line = without_return(whole);
    let start = text.bytes().len();
    number(text, value)?;
    let digits = text.bytes().len().saturating_sub(start);
    say(text, " | ")?;
    put(text, line)?;
    say(text, "\n")?;
    repeat(text, b' ', digits)?;
    say(text, " | ")?;
    indent(text, line, before)?;
    repeat(text, b'^', width)?;
    say(text, "\n")
}

/// The name of what a line has in it that cannot be shown.
fn hidden(line: &[u8]) -> &'static str {
    match line {
        [0xEF, 0xBB, 0xBF, ..] => "EF BB BF: a byte order mark (BOM); save the file without it.\n",
        [0xFF, 0xFE, ..] =>
            "FF FE: a text in UTF-16; save it as plain text (UTF-8 without a byte order mark).\n",
        [0xFE, 0xFF, ..] =>
            "FE FF: a text in UTF-16; save it as plain text (UTF-8 without a byte order mark).\n",
        _ => hidden_inside(line),
    }
}

fn hidden_inside(line: &[u8]) -> &'static str {
    if line.contains(&b'\r') {
        return "0D: a carriage return alone ends no line; save the file with line feeds.\n";
    }
    if line.contains(&0xA0) {
        return "A0: a no-break space; write a plain space.\n";
    }
    if line.contains(&0) {
        return "00: a byte 0; save the file as plain text.\n";
    }
    "Bytes beyond the letters, digits and signs of a keyboard stand in comments alone.\n"
}

/// Appends the place and the value of the first byte that cannot be shown, and its name.
pub fn name_bytes(text: &mut Text, line: &[u8]) -> Result<(), NoMemory> {
    let mut place = 0u64;
    for byte in line {
        place = place.saturating_add(1);
        if !is_shown(*byte) {
            counted(text, "byte ", place, " cannot be shown: ")?;
            hex(text, *byte)?;
            say(text, ".\n")?;
            return say(text, hidden(line));
        }
    }
    Ok(())
}

/// Appends a byte in hexadecimal.
fn hex(text: &mut Text, byte: u8) -> Result<(), NoMemory> {
    put(text, &[hex_digit(byte / 16), hex_digit(byte % 16)])
}

fn hex_digit(digit: u8) -> u8 {
    if digit < 10 {
        b'0'.saturating_add(digit)
    } else {
        b'A'.saturating_add(digit.saturating_sub(10))
    }
}
