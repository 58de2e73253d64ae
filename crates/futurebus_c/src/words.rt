//! The words of a command line.

ghost use Rattle.std.specs.Prelude.{◌≡◌, [], ◌∷◌, ◌++◌, IfOk, OnOk, codes, decimal, map, string_bytes};

use itoa::Buffer;
use no_memory::NoMemory;
use std::alloc::Global;

/// Appends a word.
fn add(alloc: Global, words: &mut Vec<String>, word: &str) -> Result<(), NoMemory>
    ensures { OnOk result (map string_bytes words.new.items
        ≡ map string_bytes words.old.items ++ word.now ∷ []) }
{
    let Ok(word) = String::from_str(alloc, word) else {
        return Err(NoMemory);
    };
    match words.push(word) {
        Ok(()) => Ok(()),
        Err(_) => Err(NoMemory),
    }
}

/// Two words.
pub fn two(alloc: Global, word: &str, other: &str) -> Result<Vec<String>, NoMemory>
    ensures { IfOk result
        (λ words. map string_bytes words.items ≡ word.now ∷ other.now ∷ []) }
{
    let mut words = Vec::new(alloc);
    add(alloc, &mut words, word)?;
    add(alloc, &mut words, other)?;
    Ok(words)
}

/// Three words.
pub fn three(alloc: Global, word: &str, other: &str, third: &str) -> Result<Vec<String>, NoMemory>
    ensures { IfOk result
        (λ words. map string_bytes words.items ≡ word.now ∷ other.now ∷ third.now ∷ []) }
{
    let mut words = two(alloc, word, other)?;
    add(alloc, &mut words, third)?;
    Ok(words)
}

/// A word and the digits of a number.
pub fn with_number(alloc: Global, word: &str, number: u64) -> Result<Vec<String>, NoMemory>
    ensures { IfOk result
        (λ words. map string_bytes words.items ≡ word.now ∷ decimal number ∷ []) }
{
    let mut buffer = Buffer::new();
    two(alloc, word, buffer.format(number))
}

/// A word, a name, `seed` and the digits of a number.
pub fn with_seed(alloc: Global, word: &str, name: &str, seed: u64) -> Result<Vec<String>, NoMemory>
    ensures { IfOk result (λ words. map string_bytes words.items
        ≡ word.now ∷ name.now ∷ codes "seed" ∷ decimal seed ∷ []) }
{
    let mut buffer = Buffer::new();
    let mut words = three(alloc, word, name, "seed")?;
    add(alloc, &mut words, buffer.format(seed))?;
    Ok(words)
}
