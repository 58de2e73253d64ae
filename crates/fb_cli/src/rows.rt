//! What the words of a command line name after a first word.

ghost use Rattle.std.specs.Prelude.{◌≡◌, ◌≤◌, ℕ, IfSome, List, Some, map, string_bytes, option_map};
ghost use Rattle.table_library.specs.Protocols.{kind_named};
ghost use Rattle.fb_cli.specs.Rows.{after, exhibit_named, one, one_and_seed, page_of, seed_of, text_in, texts, two, words_after};

use fb_text::number_within;
use table_library::{Kind, kind_of};
use usage::{help_text, page_named, version_text};

/// The number that a word spells, if it is one of 64 bits.
fn seed_of(word: &str) -> Option<u64>
    ensures { result ≡ seed_of word.now }
{
    match number_within(Some(word.as_bytes()), u64::MAX) {
        Ok(seed) => Some(seed),
        Err(_) => None,
    }
}

/// Any words.
pub fn words_after<'a>(name: &str, words: &'a [String]) -> Option<&'a [String]>
    ensures { option_map (λ rest. map string_bytes rest.now) result
        ≡ words_after name.now (map string_bytes words.now) }
{
    match words {
        [word, rest @ ..] if word.as_str() == name => Some(rest),
        _ => None,
    }
}

/// The name of a file.
pub fn file_after<'a>(name: &str, words: &'a [String]) -> Option<&'a str>
    ensures { option_map (λ file. file.now) result
        ≡ after name.now (one Some) (map string_bytes words.now) }
{
    match words_after(name, words) {
        Some([file]) => Some(file.as_str()),
        _ => None,
    }
}

/// The names of two files.
pub fn files_after<'a>(name: &str, words: &'a [String]) -> Option<(&'a str, &'a str)>
    ensures { option_map {U = List ℕ × List ℕ} (λ files. (files.0.now, files.1.now)) result
        ≡ after name.now two (map string_bytes words.now) }
{
    match words_after(name, words) {
        Some([file, other]) => Some((file.as_str(), other.as_str())),
        _ => None,
    }
}

/// A number.
pub fn seed_after(name: &str, words: &[String]) -> Option<u64>
    ensures { result ≡ after name.now (one seed_of) (map string_bytes words.now) }
{
    match words_after(name, words) {
        Some([number]) => seed_of(number.as_str()),
        _ => None,
    }
}

/// A protocol.
pub fn kind_after(name: &str, words: &[String]) -> Option<Kind>
    ensures { result ≡ after name.now (one kind_named) (map string_bytes words.now) }
{
    match words_after(name, words) {
        Some([kind]) => kind_of(kind.as_bytes()),
        _ => None,
    }
}

/// The number of an exhibit that a word spells.
fn exhibit_named(word: &str) -> Option<u8>
    ensures number { result ≡ exhibit_named word.now }
    ensures low { IfSome result (λ number. 1 ≤ number) }
    ensures high { IfSome result (λ number. number ≤ 12) }
{
    match number_within(Some(word.as_bytes()), 12) {
        Ok(0) => None,
        Ok(number) => Some(number as u8),
        Err(_) => None,
    }
}

/// The number of an exhibit.
pub fn exhibit_after(name: &str, words: &[String]) -> Option<u8>
    ensures number { result ≡ after name.now (one exhibit_named) (map string_bytes words.now) }
    ensures low { IfSome result (λ number. 1 ≤ number) }
    ensures high { IfSome result (λ number. number ≤ 12) }
{
    match words_after(name, words) {
        Some([number]) => exhibit_named(number.as_str()),
        _ => None,
    }
}

/// A file, if the word spells a number.
fn with_seed<'a>(file: &'a str, number: &str) -> Option<(&'a str, u64)>
    ensures { option_map {U = List ℕ × ℕ} (λ named. (named.0.now, named.1)) result
        ≡ option_map {U = List ℕ × ℕ} (λ n. (file.now, n)) (seed_of number.now) }
{
    match seed_of(number) {
        Some(seed) => Some((file, seed)),
        None => None,
    }
}

/// The name of a file and, after the word `seed`, a number.
pub fn file_and_seed_after<'a>(name: &str, words: &'a [String]) -> Option<(&'a str, u64)>
    ensures { option_map {U = List ℕ × ℕ} (λ named. (named.0.now, named.1)) result
        ≡ after name.now one_and_seed (map string_bytes words.now) }
{
    match words_after(name, words) {
        Some([file, seed, number]) if seed.as_str() == "seed" => {
            with_seed(file.as_str(), number.as_str())
        }
        _ => None,
    }
}

/// The page of a command.
pub fn page_after(name: &str, words: &[String]) -> Option<&'static str>
    ensures { option_map (λ page. page.now) result
        ≡ after name.now (one page_of) (map string_bytes words.now) }
{
    match words_after(name, words) {
        Some([command]) => page_named(command.as_str()),
        _ => None,
    }
}

/// The text that a word asks for.
fn text_named(word: &str) -> Option<&'static str>
    ensures { option_map (λ text. text.now) result ≡ text_in texts word.now }
{
    match word {
        "help" | "-h" | "--help" => Some(help_text()),
        "version" | "--version" => Some(version_text()),
        _ => None,
    }
}

/// The text that one word asks for.
pub fn text_alone(words: &[String]) -> Option<&'static str>
    ensures { option_map (λ text. text.now) result
        ≡ one (text_in texts) (map string_bytes words.now) }
{
    match words {
        [word] => text_named(word.as_str()),
        _ => None,
    }
}
