//! Whether the answers to a transaction are those of the boards that hold its line.

ghost use Rattle.std.specs.Prelude.{◌≡◌, ◌≤◌, ◌∷◌, IfNone, IfSome, List, false, length, drop, ℕ};
ghost use Rattle.class_relation.specs.Actions.{has_answer};
ghost use Rattle.class_relation.specs.Tables.{answers_of};
ghost use Rattle.bus_model.specs.Setup.{board_places, table_of};
ghost use Rattle.bus_model.specs.Configuration.{state_at};
ghost use Rattle.board.specs.Rack.{IsBoard, setup_of};
ghost use Rattle.backplane.specs.Permits.{do_fit_among, does_answer_fit};

use crate::permits::cell::has_answer;
use crate::permits::same::is_board;
use board::Rack;
use bus_signals::{BoardNo, BusEvent, LineNo};
use class_relation::SnoopAction;
use connect_phase::is_other_holder;
use journal::{Answer, Connected};

/// Whether an action is one that a board may answer with.
fn may_answer(
    rack: &Rack,
    line: LineNo,
    event: BusEvent,
    board: BoardNo,
    action: SnoopAction,
) -> bool
    requires { IsBoard rack.now board }
    ensures { result
        ≡ has_answer (answers_of (table_of (setup_of rack.now) board)
        (state_at rack.now.rows board line) event) action }
{
    let state = rack.state_of(board, line);
    has_answer(rack.table(board).snoop(state, event), &action)
}

/// Whether an answer is one that a board may give.
fn does_answer_fit(
    rack: &Rack,
    line: LineNo,
    event: BusEvent,
    board: BoardNo,
    answer: &Answer,
) -> bool
    requires { IsBoard rack.now board }
    ensures { result
        ≡ does_answer_fit (setup_of rack.now) rack.now.rows line event board answer.now }
{
    let own = is_board(answer.board, board);
    let alternative = may_answer(rack, line, event, board, answer.action);
    own && alternative
}

/// How many answers are taken after a board's turn to answer, if this many were before: one more
/// where the board holds the line and the next answer is one that it may give.
fn answered(rack: &Rack, connected: &Connected, board: BoardNo, before: usize) -> Option<usize>
    requires board { IsBoard rack.now board }
    requires within { before ≤ length connected.now.answers }
    ensures within { IfSome result (λ count. count ≤ length connected.now.answers) }
    ensures some { IfSome result (λ count.
        (rest : List ℕ)
        → do_fit_among rack.now connected.now (board ∷ rest)
        (drop before connected.now.answers)
        ≡ do_fit_among rack.now connected.now rest (drop count connected.now.answers)) }
    ensures none { IfNone result ((rest : List ℕ)
        → do_fit_among rack.now connected.now (board ∷ rest)
        (drop before connected.now.answers) ≡ false) }
{
    if !is_other_holder(rack, connected.master, connected.line, board) {
        return Some(before);
    }
    let answers = connected.answers.items();
    if before == answers.len() {
        return None;
    }
    if !does_answer_fit(
        rack,
        connected.line,
        connected.event,
        board,
        &answers[before],
    ) {
        return None;
    }
    Some(before + 1)
}

/// Whether each other board that holds the line gives one answer, in rising order of boards, and
/// each answer is an alternative of the board's cell.
pub fn do_answers_fit(rack: &Rack, connected: &Connected) -> bool
    ensures { result
        ≡ do_fit_among rack.now connected.now (board_places (setup_of rack.now))
        connected.now.answers }
{
    let mut count = 0;
    for place in 0..rack.boards() {
        let Some(more) = answered(rack, connected, BoardNo(place + 1), count) else {
            return false;
        };
        count = more;
    }
    count == connected.answers.items().len()
}
