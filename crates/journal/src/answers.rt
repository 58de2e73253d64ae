//! The answers of the boards to a transaction.

ghost use Rattle.std.specs.Prelude.{◌≡◌, ◌≤◌, ◌<◌, ◌++◌, ◌∷◌, [], length};
ghost use Rattle.journal.specs.Rising.{IsRising, IsAboveLast};
ghost use Rattle.journal.specs.Boards.{answer_boards};

use bus_signals::{BoardNo, Response};
use class_relation::SnoopAction;
use moesi_state::State;
use std::marker::Model;

/// The answer of a board to a transaction.
#[derive(Clone, Copy, Debug, PartialEq, Eq)]
pub struct Answer {
    pub board: BoardNo,
    pub action: SnoopAction,
}

/// At most 15 answers, of strictly rising boards. Contracts see them as a list.
#[derive(Clone, Drop)]
pub struct Answers {
    items: [Answer; 15],
    len: u8,
}

impl Model for Answers {
    ghost use Rattle.std.specs.Prelude.{◌≤◌, List, take};
    ghost use Rattle.journal.specs.declared.answers.Answer.{Answer};
    ghost use Rattle.journal.specs.Rising.{IsRising};
    ghost use Rattle.journal.specs.Boards.{answer_boards};

    ghost Value = { List Answer };

    ghost view = { λ a. take a.len a.items };

    ghost invariant = { λ a. (a.len ≤ 15) × IsRising (answer_boards (take a.len a.items)) };
}

/// What fills the places where no answer has been pushed yet.
fn no_answer() -> Answer {
    Answer {
        board: BoardNo(0),
        action: SnoopAction {
            result: State::I,
            response: Response {
                ch: false,
                di: false,
                sl: false,
            },
        },
    }
}

impl Answers {
    /// No answers.
    pub fn new() -> Answers
        ensures { result ≡ [] }
    {
        Answers {
            items: [no_answer(); 15],
            len: 0,
        }
    }

    /// Appends the answer of a board that is above that of the last one.
    pub fn push(&mut self, item: Answer)
        requires room { length self.old < 15 }
        requires above { IsAboveLast (answer_boards self.old) item.board }
        ensures { self.new ≡ self.old ++ item ∷ [] }
    {
        self.items[self.len as usize] = item;
        self.len += 1;
    }

    /// All answers, in order of board.
    pub fn items(&self) -> &[Answer]
        ensures items { result.now ≡ self.now }
        ensures short { length self.now ≤ 15 }
        ensures rising { IsRising (answer_boards self.now) }
    {
        &self.items[..self.len as usize]
    }

    /// A copy of the answers.
    pub fn copy(&self) -> Answers
        ensures { result ≡ self.now }
    {
        let mut answers = Answers::new();
        for answer in self.items() {
            answers.push(Answer {
                board: answer.board,
                action: answer.action,
            });
        }
        answers
    }
}
