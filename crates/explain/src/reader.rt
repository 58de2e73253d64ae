//! The words of a text, each with where it stands.

/// A word, and how many bytes of its line stand before it.
#[derive(Clone, Copy)]
pub struct Word<'a> {
    pub bytes: &'a [u8],
    pub before: usize,
}

/// Goes over the words of a text, line after line.
#[derive(Drop)]
pub struct Reader<'a> {
    // The current line, with its comment.
    whole: &'a [u8],
    // How many bytes of it stand before its comment.
    width: usize,
    // What is left of it before its comment, from a word on.
    here: &'a [u8],
    // The bytes after the current line.
    rest: &'a [u8],
    line: u32,
    // How many bytes stand before the end of the last word that was taken.
    taken: usize,
}

fn is_blank(byte: u8) -> bool {
    matches!(byte, b' ' | b'\t' | b'\r')
}

/// The first line, without its line feed, and what stands after the line feed.
fn split_line(bytes: &[u8]) -> (&[u8], &[u8]) {
    match bytes.iter().position(|byte| *byte == b'\n') {
        Some(end) => {
            let (line, rest) = bytes.split_at(end);
            (line, without_first(rest))
        }
        None => (bytes, &[]),
    }
}

/// What stands after the first byte, where there is one.
pub fn without_first(bytes: &[u8]) -> &[u8] {
    match bytes {
        [_, rest @ ..] => rest,
        [] => bytes,
    }
}

/// What stands before the comment of a line.
pub fn without_comment(line: &[u8]) -> &[u8] {
    match line.iter().position(|byte| *byte == b'#') {
        Some(end) => line.split_at(end).0,
        None => line,
    }
}

/// What stands from the first byte on that is no blank.
fn without_blanks(line: &[u8]) -> &[u8] {
    match line.iter().position(|byte| !is_blank(*byte)) {
        Some(start) => line.split_at(start).1,
        None => &[],
    }
}

/// The first word of bytes that begin with no blank, and what stands after it.
fn first_word(bytes: &[u8]) -> (&[u8], &[u8]) {
    match bytes.iter().position(|byte| is_blank(*byte)) {
        Some(end) => bytes.split_at(end),
        None => (bytes, &[]),
    }
}

impl<'a> Reader<'a> {
    /// Stands before the first line.
    pub fn over(bytes: &'a [u8]) -> Reader<'a> {
        Reader {
            whole: &[],
            width: 0,
            here: &[],
            rest: bytes,
            line: 0,
            taken: 0,
        }
    }

    /// Stands at the first word of one line.
    pub fn of_line(line: &'a [u8]) -> Reader<'a> {
        let mut reader = Reader::over(&[]);
        reader.enter(line);
        reader
    }

    fn enter(&mut self, line: &'a [u8]) {
        let contents = without_comment(line);
        self.whole = line;
        self.width = contents.len();
        self.here = without_blanks(contents);
        self.line = self.line.saturating_add(1);
        self.taken = 0;
    }

    /// Goes to the next line that has a word, or past the last line where none has.
    pub fn next_line(&mut self) -> bool {
        for _ in 0..self.rest.len() {
            if self.rest.is_empty() {
                break;
            }
            let (line, rest) = split_line(self.rest);
            self.rest = rest;
            self.enter(line);
            if !self.here.is_empty() {
                return true;
            }
        }
        self.enter(&[]);
        false
    }

    /// The next word of the current line.
    pub fn next_word(&mut self) -> Option<Word<'a>> {
        if self.here.is_empty() {
            return None;
        }
        let before = self.width.saturating_sub(self.here.len());
        let (bytes, after) = first_word(self.here);
        self.taken = before.saturating_add(bytes.len());
        self.here = without_blanks(after);
        Some(Word { bytes, before })
    }

    /// The number of the current line, from 1.
    pub fn line(&self) -> u32 {
        self.line
    }

    /// The current line, with its comment.
    pub fn whole(&self) -> &'a [u8] {
        self.whole
    }

    /// How many bytes stand before the end of the last word that was taken.
    pub fn taken(&self) -> usize {
        self.taken
    }

    /// No fewer than the words that are left of the current line.
    pub fn most_words(&self) -> usize {
        self.here.len()
    }

    /// No fewer than the lines that are left.
    pub fn most_lines(&self) -> usize {
        self.rest.len()
    }
}
