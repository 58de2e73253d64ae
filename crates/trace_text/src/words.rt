//! What a word of a line spells.

ghost use Rattle.std.specs.Prelude.{◌≡◌, ◌≤◌, take, drop, None, Some, IfSome, MatchOption};
ghost use Rattle.trace_text.specs.Reading.{number_between, board_of, sides_of, placed_of, response, response_of, action_of, answer_of, source_of};

use crate::pieces::Pieces;
use bus_signals::{BoardNo, Response};
use class_relation::SnoopAction;
use class_words::{is, state_of};
use fb_text::number_within;
use journal::{Answer, Source};
use moesi_state::State;

/// A number from `least` to `most`.
pub fn number(word: &[u8], least: u64, most: u64) -> Option<u64>
    ensures number { result ≡ number_between least most word.now }
    ensures within { IfSome result (λ n. n ≤ most) }
{
    let Ok(n) = number_within(Some(word), most) else {
        return None;
    };
    if n < least {
        return None;
    }
    Some(n)
}

/// A board's place in the setup.
pub fn board(word: &[u8]) -> Option<BoardNo>
    ensures { result ≡ board_of word.now }
{
    let n = number(word, 1, 16)?;
    Some(BoardNo(n as u8))
}

/// Both sides of the one `=` of a word.
fn sides(word: &[u8]) -> Option<(&[u8], &[u8])>
    ensures { MatchOption result (sides_of word.now ≡ None)
        (λ s. sides_of word.now ≡ Some (s.0.now, s.1.now)) }
{
    let mut parts = Pieces::over(word, b'=');
    let left = parts.take()?;
    let right = parts.take()?;
    if !parts.is_at_end() {
        return None;
    }
    Some((left, right))
}

/// A board and a state, as `2=S`.
#[tactic(auto, unfolding(crate::specs::Reading::placed_of))]
pub fn placed(word: &[u8]) -> Option<(BoardNo, State)>
    ensures { result ≡ placed_of word.now }
{
    let Some((left, right)) = sides(word) else {
        return None;
    };
    let board = board(left)?;
    let state = state_of(right)?;
    Some((board, state))
}

fn signals(ch: bool, di: bool, sl: bool) -> Response
    ensures { result ≡ response ch di sl }
{
    Response { ch, di, sl }
}

/// The signals after the state of an answer.
#[tactic(auto, unfolding(crate::specs::Reading::response_of))]
fn response(word: &[u8]) -> Option<Response>
    ensures { result ≡ response_of word.now }
{
    if is(word, "") {
        Some(signals(false, false, false))
    } else if is(word, "+CH") {
        Some(signals(true, false, false))
    } else if is(word, "+DI") {
        Some(signals(false, true, false))
    } else if is(word, "+SL") {
        Some(signals(false, false, true))
    } else if is(word, "+CH+DI") {
        Some(signals(true, true, false))
    } else if is(word, "+CH+SL") {
        Some(signals(true, false, true))
    } else if is(word, "+DI+SL") {
        Some(signals(false, true, true))
    } else if is(word, "+CH+DI+SL") {
        Some(signals(true, true, true))
    } else {
        None
    }
}

/// The first byte of a text, if there is one, and what follows it.
fn first_byte(text: &[u8]) -> (&[u8], &[u8])
    ensures front { result.0.now ≡ take 1 text.now }
    ensures back { result.1.now ≡ drop 1 text.now }
{
    if text.is_empty() {
        return (text, text);
    }
    text.split_at(1)
}

/// The state and the signals of an answer.
#[tactic(auto, unfolding(crate::specs::Reading::action_of))]
fn action(text: &[u8]) -> Option<SnoopAction>
    ensures { result ≡ action_of text.now }
{
    let (letter, signals) = first_byte(text);
    let result = state_of(letter)?;
    let response = response(signals)?;
    Some(SnoopAction { result, response })
}

/// A board, the state that it answers with, and its signals, as `1=O+CH+DI`.
#[tactic(auto, unfolding(crate::specs::Reading::answer_of))]
pub fn answer(word: &[u8]) -> Option<Answer>
    ensures { result ≡ answer_of word.now }
{
    let Some((left, right)) = sides(word) else {
        return None;
    };
    let board = board(left)?;
    let action = action(right)?;
    Some(Answer { board, action })
}

/// Where the words of a data phase come from.
#[tactic(auto, unfolding(crate::specs::Reading::source_of))]
pub fn source(word: &[u8]) -> Option<Source>
    ensures { result ≡ source_of word.now }
{
    if is(word, "none") {
        return Some(Source::Nobody);
    }
    if is(word, "memory") {
        return Some(Source::Memory);
    }
    let board = board(word)?;
    Some(Source::Board(board))
}
