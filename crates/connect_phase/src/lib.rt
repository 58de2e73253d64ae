//! The connect phase: the boards that hold the line of a transaction answer it.
#![tactic(auto)]

ghost use Rattle.std.specs.Prelude.{◌≡◌, ◌≢◌, ◌^◌, ◌+◌, ◌<◌, ◌≤◌, suc, [], ◌∷◌, ◌++◌, map, filter, length};
ghost use Rattle.bus_model.specs.Configuration.{Configuration};
ghost use Rattle.bus_model.specs.Turns.{transaction_of};
ghost use Rattle.bus_model.specs.Connecting.{AnswersFit, other_holders, responses, intervener};
ghost use Rattle.journal.specs.Boards.{answer_boards};
ghost use Rattle.board.specs.Rack.{IsBoard, setup_of};
ghost use Rattle.board.specs.Shown.{RackShows};
ghost use Rattle.connect_phase.specs.Answering.{connected_by, rack_answered, SpentBelow, AllBelow, AllAreBoards, AllCanAnswer, answer_from, is_other_holder, with_answers};

use board::Rack;
use bus_signals::{BoardNo, BusEvent, LineNo, Response, wired};
use journal::{Answer, Answers, Connected};
use moesi_state::Outcome;

/// Whether a board other than the master holds a line.
pub fn is_other_holder(rack: &Rack, master: BoardNo, line: LineNo, board: BoardNo) -> bool
    requires { IsBoard rack.now board }
    ensures { result ≡ is_other_holder rack.now.rows master line board }
{
    let held = rack.state_of(board, line).holds();
    board.0 != master.0 && held
}

/// Takes the answer of a board, if the board is not the master and holds the line.
fn ask(
    rack: &Rack,
    master: BoardNo,
    line: LineNo,
    event: BusEvent,
    board: BoardNo,
    answers: &mut Answers,
)
    requires board { IsBoard rack.now board }
    requires room { board ≢ master → length answers.old < 15 }
    requires above { AllBelow board (answer_boards answers.old) }
    ensures answers { answers.new
        ≡ answers.old
        ++ map (answer_from rack.now line event)
        (filter (is_other_holder rack.now.rows master line) (board ∷ [])) }
    ensures one { length answers.new ≤ length answers.old + 1 }
    ensures none { board ≡ master → length answers.new ≤ length answers.old }
    ensures below { AllBelow (suc board) (answer_boards answers.new) }
{
    if is_other_holder(rack, master, line, board) {
        let action = rack.answer(board, line, event);
        answers.push(Answer { board, action });
    }
}

/// The answers of the other boards that hold a line, as each picks them.
fn answers_to(rack: &Rack, master: BoardNo, line: LineNo, event: BusEvent) -> Answers
    requires { IsBoard rack.now master }
    ensures { result
        ≡ map (answer_from rack.now line event)
        (other_holders (setup_of rack.now) rack.now.rows master line) }
{
    let mut answers = Answers::new();
    for place in 0..rack.boards() {
        ask(rack, master, line, event, BoardNo(place + 1), &mut answers);
    }
    answers
}

/// Each answering board goes to its next draw.
pub fn spend_all(rack: &mut Rack, answers: &[Answer])
    requires boards { AllAreBoards rack.old answers.now }
    requires few { length answers.now ≤ 15 }
    requires draws { SpentBelow (2 ^ 63) rack.old.counts }
    ensures { rack.new ≡ rack_answered rack.old answers.now }
{
    for answer in answers {
        rack.spend(answer.board);
    }
}

/// Connects a transaction: each other board that holds the line answers with what it picks, and
/// spends a draw.
pub fn connect(
    rack: &mut Rack,
    master: BoardNo,
    line: LineNo,
    event: BusEvent,
    outcome: Outcome,
) -> Connected
    requires master { IsBoard rack.old master }
    requires draws { SpentBelow (2 ^ 63) rack.old.counts }
    ensures transaction { result ≡ connected_by rack.old master line event outcome }
    ensures draws { rack.new ≡ rack_answered rack.old result.answers }
    ensures picks { (c : Configuration) → RackShows c rack.old
        → result ≡ transaction_of (setup_of rack.old) c master line event outcome }
    ensures shows { (c : Configuration) → RackShows c rack.old
        → RackShows (with_answers c result) rack.new }
    ensures fits { let others = other_holders (setup_of rack.old) rack.old.rows master line in
        AllCanAnswer (setup_of rack.old) rack.old.rows line event others
        → AnswersFit (setup_of rack.old) rack.old.rows line event others result.answers }
{
    let answers = answers_to(rack, master, line, event);
    spend_all(rack, answers.items());
    Connected {
        master,
        event,
        line,
        outcome,
        answers,
    }
}

/// What the answers assert together.
pub fn response(connected: &Connected) -> Response
    ensures { result ≡ responses connected.now.answers }
{
    let mut all = Response {
        ch: false,
        di: false,
        sl: false,
    };
    for answer in connected.answers.items() {
        all = wired(all, answer.action.response);
    }
    all
}

/// The board that asserts DI, or the first of them if several do.
pub fn intervener(connected: &Connected) -> Option<BoardNo>
    ensures { result ≡ intervener connected.now.answers }
{
    for answer in connected.answers.items() {
        if answer.action.response.di {
            return Some(answer.board);
        }
    }
    None
}
