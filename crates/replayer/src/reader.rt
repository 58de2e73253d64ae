//! Reading lines that come piece by piece.

ghost use Rattle.std.specs.Prelude.{◌≡◌, ◌↔◌, ◌<◌, ◌+◌, ◌++◌, [], nat_le, MatchOption, length, take, drop, IsTrue, IsFalse};
ghost use Rattle.replayer.specs.Reader.{LacksFeed, IsCut, found_in};
ghost use Rattle.replayer.specs.Traces.{longest};

use arrayvec::ArrayVec;
use class_words::is;
use journal::Event;
use memchr::memchr;
use std::marker::Model;
use trace_text::read_event;

/// What a line with its line feed is.
#[derive(Drop)]
pub enum Found {
    Event(Event),
    End,
    Misspelled,
}

/// The bytes of a line whose line feed has not come. There are at most 256.
#[derive(Drop)]
pub struct Reader {
    unfinished: ArrayVec<u8, 256>,
}

impl Model for Reader {
    ghost use Rattle.std.specs.Prelude.{ℕ, List};
    ghost use Rattle.replayer.specs.Reader.{LacksFeed};

    ghost Value = { List ℕ };

    ghost view = { λ r. r.unfinished.items };

    ghost invariant = { λ r. LacksFeed r.unfinished.items };
}

/// The first line and the rest after its line feed, if there is a line feed.
pub fn first_line(text: &[u8]) -> Option<(&[u8], &[u8])>
    ensures { MatchOption result (LacksFeed text.now)
        (λ parts. IsCut text.now parts.0.now parts.1.now) }
{
    let Some(end) = memchr(b'\n', text) else {
        return None;
    };
    Some(cut(text, end))
}

/// The bytes before a place, and those after it.
fn cut(text: &[u8], at: usize) -> (&[u8], &[u8])
    requires { at < length text.now }
    ensures front { result.0.now ≡ take at text.now }
    ensures back { result.1.now ≡ drop (at + 1) text.now }
{
    let (front, back) = text.split_at(at);
    (front, &back[1..])
}

/// Appends bytes where there is room for all of them.
fn extend(kept: &mut ArrayVec<u8, 256>, bytes: &[u8]) -> bool
    ensures fits { result ≡ nat_le (length (kept.old.items ++ bytes.now)) 256 }
    ensures kept { IsTrue result → kept.new.items ≡ kept.old.items ++ bytes.now }
    ensures unchanged { IsFalse result → kept.new.items ≡ kept.old.items }
{
    kept.try_extend_from_slice(bytes).is_ok()
}

/// What a line with its line feed is.
fn meaning(line: &[u8]) -> Found
    ensures { result ≡ found_in line.now }
{
    if is(line, "end") {
        return Found::End;
    }
    match read_event(line) {
        Some(event) => Found::Event(event),
        None => Found::Misspelled,
    }
}

impl Reader {
    /// Before the first line.
    pub fn new() -> Reader
        ensures { result ≡ [] }
    {
        Reader {
            unfinished: ArrayVec::new(),
        }
    }

    /// Whether no byte of a line was read.
    pub fn is_empty(&self) -> bool
        ensures { IsTrue result ↔ (self.now ≡ []) }
    {
        self.unfinished.is_empty()
    }

    /// The line ends with these bytes, and its line feed follows.
    pub fn close(&mut self, bytes: &[u8]) -> Found
        ensures found { result ≡ found_in (self.old ++ bytes.now) }
        ensures fresh { self.new ≡ [] }
        ensures lacks { LacksFeed self.old }
    {
        if self.unfinished.is_empty() {
            return meaning(bytes);
        }
        self.close_kept(bytes)
    }

    /// The same for a line of which some bytes are kept.
    fn close_kept(&mut self, bytes: &[u8]) -> Found
        ensures found { result ≡ found_in (self.old ++ bytes.now) }
        ensures fresh { self.new ≡ [] }
    {
        if !extend(&mut self.unfinished, bytes) {
            self.unfinished.clear();
            return Found::Misspelled;
        }
        let line = meaning(self.unfinished.as_slice());
        self.unfinished.clear();
        line
    }

    /// The line goes on with these bytes. It answers false if there are too many, and then
    /// nothing has changed.
    pub fn keep(&mut self, bytes: &[u8]) -> bool
        requires { LacksFeed bytes.now }
        ensures fits { result ≡ nat_le (length (self.old ++ bytes.now)) longest }
        ensures kept { IsTrue result → self.new ≡ self.old ++ bytes.now }
        ensures unchanged { IsFalse result → self.new ≡ self.old }
        ensures lacks { LacksFeed self.old }
    {
        extend(&mut self.unfinished, bytes)
    }
}
