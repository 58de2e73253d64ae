//! The pieces of a text between two of a byte, one after another.

ghost use Rattle.std.specs.Prelude.{◌≡◌, ◌<◌, ◌+◌, [], ◌∷◌, length, take, drop, MatchOption, ◌==◌};
ghost use Rattle.std.specs.List.{position};
ghost use Rattle.fb_text.specs.Lines.{is_empty};
ghost use Rattle.trace_text.specs.Reading.{pieces};

use std::marker::Model;

/// What is left of the pieces of a text. It is seen as the list of these pieces.
#[derive(Drop)]
pub struct Pieces<'a> {
    rest: &'a [u8],
    byte: u8,
    ended: bool,
}

impl<'a> Model for Pieces<'a> {
    ghost use Rattle.std.specs.Prelude.{ℕ, List, [], if◌then◌else◌};
    ghost use Rattle.trace_text.specs.Reading.{pieces};

    ghost Value = { List (List ℕ) };

    ghost view = { λ p. if p.ended then [] else pieces p.byte p.rest.now };
}

fn place_of(text: &[u8], byte: u8) -> Option<usize>
    ensures { result ≡ position (λ b. b == byte) text.now }
{
    text.iter().position(|b| *b == byte)
}

/// What comes before a place, and what comes after it.
fn cut(text: &[u8], at: usize) -> (&[u8], &[u8])
    requires { at < length text.now }
    ensures front { result.0.now ≡ take at text.now }
    ensures back { result.1.now ≡ drop (at + 1) text.now }
{
    let (front, back) = text.split_at(at);
    (front, &back[1..])
}

impl<'a> Pieces<'a> {
    /// All pieces of a text.
    pub fn over(text: &'a [u8], byte: u8) -> Self
        ensures { result ≡ pieces byte text.now }
    {
        Pieces {
            rest: text,
            byte,
            ended: false,
        }
    }

    /// The next piece.
    pub fn take(&mut self) -> Option<&'a [u8]>
        ensures { MatchOption result (self.old ≡ []) (λ piece. self.old ≡ piece.now ∷ self.new) }
    {
        if self.ended {
            return None;
        }
        match place_of(self.rest, self.byte) {
            Some(end) => {
                let (piece, rest) = cut(self.rest, end);
                self.rest = rest;
                Some(piece)
            }
            None => {
                let piece = self.rest;
                self.ended = true;
                Some(piece)
            }
        }
    }

    /// Whether no piece is left.
    pub fn is_at_end(&self) -> bool
        ensures { result ≡ is_empty self.now }
    {
        self.ended
    }
}
