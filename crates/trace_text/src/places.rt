//! The takers of a data phase, in one word.

ghost use Rattle.std.specs.Prelude.{◌≡◌, [], MatchOption, IfSome, Some, None};
ghost use Rattle.trace_text.specs.Reading.{last_of, added_place, more_places, takers_in, takers_of, board_of};

use crate::pieces::Pieces;
use crate::words::board;
use class_words::is;
use journal::{Places, Takers};

/// Adds the board of a part, where it is above the last one, and gives it as the last.
fn add(places: &mut Places, last: u8, part: &[u8]) -> Option<u8>
    requires { last ≡ last_of places.old }
    ensures added { MatchOption result (added_place places.old (board_of part.now) ≡ None)
        (λ _. added_place places.old (board_of part.now) ≡ Some places.new) }
    ensures last { IfSome result (λ n. n ≡ last_of places.new) }
{
    let Some(next) = board(part) else {
        return None;
    };
    let place = next.0;
    if places.items().len() >= 16 || place <= last {
        return None;
    }
    places.push(next);
    Some(place)
}

/// Adds the boards of all parts that are left.
fn add_all(places: &mut Places, last: u8, parts: &mut Pieces) -> Option<()>
    requires { last ≡ last_of places.old }
    ensures { MatchOption result (more_places places.old parts.old ≡ None)
        (λ _. more_places places.old parts.old ≡ Some places.new) }
{
    let mut last = last;
    while let Some(part) = parts.take() {
        let Some(next) = add(places, last, part) else {
            return None;
        };
        last = next;
    }
    Some(())
}

/// The memory, where it takes, and then boards, divided by commas.
#[tactic(auto, unfolding(crate::specs::Reading::takers_of))]
pub fn takers(word: &[u8]) -> Option<Takers>
    ensures { result ≡ takers_of word.now }
{
    if is(word, "none") {
        return Some(Takers {
            memory: false,
            boards: Places::new(),
        });
    }
    takers_in(&mut Pieces::over(word, b','))
}

fn takers_in(parts: &mut Pieces) -> Option<Takers>
    ensures { result ≡ takers_in parts.old }
{
    let Some(first) = parts.take() else {
        return None;
    };
    let mut boards = Places::new();
    if is(first, "memory") {
        let Some(()) = add_all(&mut boards, 0, parts) else {
            return None;
        };
        return Some(Takers {
            memory: true,
            boards,
        });
    }
    let Some(last) = add(&mut boards, 0, first) else {
        return None;
    };
    let Some(()) = add_all(&mut boards, last, parts) else {
        return None;
    };
    Some(Takers {
        memory: false,
        boards,
    })
}
