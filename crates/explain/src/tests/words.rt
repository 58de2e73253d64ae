//! Words that ask for no command, and files that are not read.

use crate::*;
use fb_text::Text;
use std::alloc::{AllocError, Global};
use std::test::Fail;

/// The words of a text, which are divided by blanks.
fn words(alloc: Global, text: &str) -> Result<Vec<String>, AllocError> {
    let mut words = Vec::new(alloc);
    for word in text.split(' ') {
        words.push(String::from_str(alloc, word)?)?;
    }
    Ok(words)
}

#[test]
fn words_are_explained(rt: HostRuntime) -> Result<(), Fail> {
    let words = words(rt.alloc(), "check")?;
    let mut text = Text::new(rt.alloc());
    explain_words(rt.alloc(), &words, &mut text)?;
    assert_eq!(rt;
        text.bytes(),
        b"A word is missing.\nExpected: check FILE.\n".as_slice()
    );
    Ok(())
}

#[test]
fn files_are_explained(rt: HostRuntime) -> Result<(), Fail> {
    let mut text = Text::new(rt.alloc());
    text.reserve(2)?;
    text.push(b"x\n");
    explain_unread(rt.alloc(), "F", "the setup", &mut text)?;
    explain_length(rt.alloc(), "F", Some(9), 8, &mut text)?;
    explain_length(rt.alloc(), "F", None, 8, &mut text)?;
    assert_eq!(rt;
        text.bytes(),
        b"x\nThe file F, which is the setup of this command, was not read. \
          Is its name right, and may it be read?\n\
          The file F has 9 bytes; there may be at most 8 bytes.\n\
          The file F is too long; there may be at most 8 bytes.\n"
            .as_slice()
    );
    Ok(())
}
