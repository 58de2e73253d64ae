//! A page, which is filled with lines before it is written.

ghost use Rattle.std.specs.Prelude.{◌≡◌, ◌++◌, [], IsTrue, IsFalse};
ghost use Rattle.run_text.specs.Printing.{Printed, Paged};

use arrayvec::ArrayVec;
use fb_edge::{PutFailed, Sink, put_all};
use std::marker::Model;

/// Bytes that wait to be written. There are at most 4,096.
#[derive(Drop)]
pub(crate) struct Page {
    bytes: ArrayVec<u8, 4096>,
}

impl Model for Page {
    ghost use Rattle.std.specs.Prelude.{ℕ, List};

    ghost Value = { List ℕ };

    ghost view = { λ p. p.bytes.items };
}

impl Page {
    /// An empty page.
    pub(crate) fn new() -> Page
        ensures { result ≡ [] }
    {
        Page {
            bytes: ArrayVec::new(),
        }
    }

    /// Appends a line where there is room for it.
    fn keep(&mut self, line: &[u8]) -> bool
        ensures kept { IsTrue result → self.new ≡ self.old ++ line.now }
        ensures unchanged { IsFalse result → self.new ≡ self.old }
    {
        self.bytes.try_extend_from_slice(line).is_ok()
    }

    /// Writes the bytes that wait, and empties the page.
    pub(crate) fn flush<K: Sink>(&mut self, sink: &mut K) -> Result<(), PutFailed>
        ensures printed { Printed (K.faults sink.old) (K.faults sink.new) (K.taken sink.old)
            (K.taken sink.new) self.old result }
        ensures empty { self.new ≡ [] }
    {
        let result = put_all(sink, self.bytes.as_slice());
        self.bytes.clear();
        result
    }

    /// Appends a line, and first writes the waiting bytes if there is no room for it.
    pub(crate) fn add<K: Sink>(&mut self, line: &[u8], sink: &mut K) -> Result<(), PutFailed>
        ensures paged { Paged (K.faults sink.old) (K.faults sink.new) (K.taken sink.old)
            (K.taken sink.new) self.old self.new line.now result }
    {
        if self.keep(line) {
            return Ok(());
        }
        if let Err(failed) = self.flush(sink) {
            return Err(failed);
        }
        if self.keep(line) {
            return Ok(());
        }
        // The line is longer than a page.
        put_all(sink, line)
    }
}
