//! The answers of a connect line, and the states of a data line.

ghost use Rattle.std.specs.Prelude.{◌≡◌, ◌<◌, ℕ, [], ◌∷◌, length, drop, Some, None, MatchOption, IfSome};
ghost use Rattle.journal.specs.Boards.{answer_boards, state_boards};
ghost use Rattle.trace_text.specs.Reading.{Gives, last_of, answer_of, added_answer, more_answers, answers_at, ended, placed_of, added_state, more_states, states_at};

use crate::pieces::Pieces;
use crate::words::{answer, placed};
use bus_signals::BoardNo;
use class_words::is;
use journal::{Answers, States};

fn place_of(board: BoardNo) -> u8
    ensures { result ≡ board }
{
    board.0
}

/// Adds the answer of a word, where its board is above the last one, and gives its board as the
/// last.
fn add_answer(answers: &mut Answers, last: u8, word: &[u8]) -> Option<u8>
    requires { last ≡ last_of (answer_boards answers.old) }
    ensures added { MatchOption result (added_answer answers.old (answer_of word.now) ≡ None)
        (λ _. added_answer answers.old (answer_of word.now) ≡ Some answers.new) }
    ensures last { IfSome result (λ n. n ≡ last_of (answer_boards answers.new)) }
{
    let Some(next) = answer(word) else {
        return None;
    };
    let place = place_of(next.board);
    if answers.items().len() >= 15 || place <= last {
        return None;
    }
    answers.push(next);
    Some(place)
}

/// Adds the answers of all words that are left.
fn add_answers(answers: &mut Answers, last: u8, line: &mut Pieces) -> Option<()>
    requires { last ≡ last_of (answer_boards answers.old) }
    ensures { MatchOption result (more_answers answers.old line.old ≡ None)
        (λ _. more_answers answers.old line.old ≡ Some answers.new) }
{
    let mut last = last;
    while let Some(word) = line.take() {
        let Some(next) = add_answer(answers, last, word) else {
            return None;
        };
        last = next;
    }
    Some(())
}

/// The answers up to the end of the line.
#[tactic(auto, unfolding(crate::specs::Reading::answers_at))]
pub fn answers(line: &mut Pieces) -> Option<Answers>
    ensures { result ≡ answers_at line.old }
{
    let Some(first) = line.take() else {
        return None;
    };
    let mut answers = Answers::new();
    if is(first, "none") {
        if !line.is_at_end() {
            return None;
        }
        return Some(answers);
    }
    let Some(last) = add_answer(&mut answers, 0, first) else {
        return None;
    };
    let Some(()) = add_answers(&mut answers, last, line) else {
        return None;
    };
    Some(answers)
}

/// Adds the state of a word, where its board is another than the master and above the last one of
/// the others, and gives its board as the last.
fn add_state(states: &mut States, master: BoardNo, last: u8, word: &[u8]) -> Option<u8>
    requires some { 0 < length states.old }
    requires last { last ≡ last_of (drop 1 (state_boards states.old)) }
    ensures some { 0 < length states.new }
    ensures added { MatchOption result (added_state master states.old (placed_of word.now) ≡ None)
        (λ _. added_state master states.old (placed_of word.now) ≡ Some states.new) }
    ensures last { IfSome result (λ n. n ≡ last_of (drop 1 (state_boards states.new))) }
{
    let Some(next) = placed(word) else {
        return None;
    };
    let place = place_of(next.0);
    if states.items().len() >= 16 || place <= last || place == place_of(master) {
        return None;
    }
    states.push(next);
    Some(place)
}

/// Adds the states of all words up to `done`.
fn add_states(states: &mut States, master: BoardNo, line: &mut Pieces) -> Option<()>
    requires { length states.old ≡ 1 }
    ensures { MatchOption result (more_states master states.old line.old ≡ None)
        (λ _. more_states master states.old line.old ≡ Some (states.new, line.new)) }
{
    let mut last = 0;
    while let Some(word) = line.take() {
        if is(word, "done") {
            return Some(());
        }
        let Some(next) = add_state(states, master, last, word) else {
            return None;
        };
        last = next;
    }
    None
}

/// The master's state, and then those of the others up to the word `done`.
#[tactic(auto, unfolding(crate::specs::Reading::states_at))]
pub fn states(line: &mut Pieces, master: BoardNo) -> Option<States>
    ensures { Gives (λ all. (all, line.new)) result (states_at master line.old) }
{
    let Some(word) = line.take() else {
        return None;
    };
    let Some(first) = placed(word) else {
        return None;
    };
    if first.0 != master {
        return None;
    }
    let mut states = States::new();
    states.push(first);
    let Some(()) = add_states(&mut states, master, line) else {
        return None;
    };
    Some(states)
}
