//! The parts of the machine that change, and what each event does to them.

ghost use Rattle.std.specs.Prelude.{◌≡◌, ◌≤◌, if◌then◌else◌, ℕ, suc, List, Bool, Some, IsTrue, IsFalse, length};
ghost use Rattle.moesi_state.specs.declared.State.{State};
ghost use Rattle.moesi_state.specs.States.{holds};
ghost use Rattle.bus_model.specs.Setup.{Setup, WellFormed};
ghost use Rattle.bus_model.specs.Configuration.{Configuration, has_row};
ghost use Rattle.bus_model.specs.Configuration as model;
ghost use Rattle.bus_model.specs.Board.{access_line};
ghost use Rattle.bus_model.specs.Places.{at_place, change_place};
ghost use Rattle.bus_model.specs.Carrying.{done_of};
ghost use Rattle.bus_model.specs.Turns.{transaction_of};
ghost use Rattle.bus_model.specs.Effects.{ask, in_phase, drop_copy};
ghost use Rattle.bus_model.specs.Steps.{after_local, after_grant, after_connect, after_data};
ghost use Rattle.bus_model.specs.Soundness.{PartsFit};
ghost use Rattle.board.specs.Rack.{can_fill, setup_of};
ghost use Rattle.data_phase.specs.Seen.{carried_for};
ghost use Rattle.connect_phase.specs.Answering.{AllAreBoards};
ghost use Rattle.backplane.specs.Parts.{PartsShow, IsPartOf, CountsAreLow, CanCarry, PlacesFit};

use crate::phase::Phase;
use arbiter::Requests;
use board::{Change, Rack};
use bus_signals::{Access, BoardNo, BusEvent, LineNo};
use connect_phase::{connect, spend_all};
use data_phase::{copy_words, transfer, written};
use journal::{Carried, Connected, Done};
use memory_board::MemoryBoard;
use moesi_state::{Outcome, State};

/// The boards with their rows, the memory, the requests for the bus, the phase of the bus with the
/// transaction that is connected, and how many accesses each board has completed.
#[derive(Drop)]
pub struct Parts {
    pub rack: Rack,
    pub memory: MemoryBoard,
    pub requests: Requests,
    pub phase: Phase,
    pub places: Vec<u32>,
}

/// The access that a transaction on a line serves: none where it flushes a victim.
fn served(access: Option<Access>, line: LineNo) -> Option<Access>
    ensures { (words : List ℕ) → done_of result line words ≡ done_of access line words }
{
    match access {
        Some(access) if access.addr().line().0 == line.0 => Some(access),
        _ => None,
    }
}

/// A board has completed one more access.
fn complete(places: &mut Vec<u32>, board: BoardNo)
    requires low { 1 ≤ board }
    requires high { board ≤ length places.old.items }
    requires fit { PlacesFit places.old.items }
    ensures { places.new.items ≡ change_place suc places.old.items board }
{
    places[board.0 as usize - 1] += 1;
}

/// A board has completed one more access, if it completed one.
fn complete_if(completes: bool, places: &mut Vec<u32>, board: BoardNo)
    requires low { 1 ≤ board }
    requires high { board ≤ length places.old.items }
    requires fit { PlacesFit places.old.items }
    ensures { places.new.items
        ≡ (if completes then change_place suc places.old.items board else places.old.items) }
{
    if completes {
        complete(places, board);
    }
}

impl Parts {
    /// How many accesses a board has completed.
    pub fn place(&self, board: BoardNo) -> u32
        requires { IsPartOf self.now board }
        ensures { at_place self.now.places.items board ≡ Some result }
    {
        self.places[board.0 as usize - 1]
    }

    /// A board raises a request.
    pub fn raise(&mut self, board: BoardNo)
        requires { IsPartOf self.old board }
        ensures { (setup : Setup) (c : Configuration) → PartsShow setup c self.old
            → PartsShow setup (ask Bool.true c board) self.new }
    {
        self.requests.raise(board);
    }

    /// The bus is granted to a board: its request is lowered, and it is marked as served if
    /// arbitration is fair.
    pub fn grant(&mut self, winner: BoardNo)
        requires { IsPartOf self.old winner }
        ensures { (setup : Setup) (c : Configuration) → WellFormed setup → PartsFit setup c
            → PartsShow setup c self.old → PartsShow setup (after_grant c winner) self.new }
    {
        self.requests.give(winner);
        self.phase = Phase::Granted(winner);
    }

    /// A board gives up its row of a line.
    pub fn give_up(&mut self, board: BoardNo, line: LineNo)
        requires { IsPartOf self.old board }
        ensures { (setup : Setup) (c : Configuration) → PartsShow setup c self.old
            → PartsShow setup (drop_copy c board line) self.new }
    {
        self.rack.change(board, line, State::I, Change::Keep);
    }

    /// A board completes an access by itself, and its copy of the line gets this state.
    pub fn settle(&mut self, board: BoardNo, state: State, done: &Done)
        requires board { IsPartOf self.old board }
        requires counts { CountsAreLow self.old }
        requires room { let line = access_line done.now.access in
            IsFalse (has_row self.old.rack.rows board line) → IsTrue (holds state)
            → IsTrue (can_fill (setup_of self.old.rack) self.old.rack.rows board line) }
        ensures { (setup : Setup) (c : Configuration) → PartsShow setup c self.old
            → PartsShow setup (after_local c board state done.now) self.new }
    {
        let line = done.access.addr().line();
        let words = written(&done.access, copy_words(&self.rack, board, line));
        self.rack.put_copy(board, line, words, state);
        self.rack.spend(board);
        self.requests.lower(board);
        complete(&mut self.places, board);
        if self.phase.is_granted(board) {
            self.phase = Phase::Idle;
        }
    }

    /// A transaction is connected, with these answers: its master and each answering board spend a
    /// draw.
    pub fn latch(&mut self, connected: &Connected)
        requires master { IsPartOf self.old connected.now.master }
        requires answers { AllAreBoards self.old.rack connected.now.answers }
        requires counts { CountsAreLow self.old }
        ensures { (setup : Setup) (c : Configuration) → PartsShow setup c self.old
            → PartsShow setup (after_connect c connected.now) self.new }
    {
        spend_all(&mut self.rack, connected.answers.items());
        self.rack.spend(connected.master);
        self.phase = Phase::Connected(connected.copy());
    }

    /// A board connects a transaction, and each other board with a row of the line answers as it
    /// picks.
    pub fn connect(
        &mut self,
        master: BoardNo,
        line: LineNo,
        event: BusEvent,
        outcome: Outcome,
    ) -> Connected
        requires master { IsPartOf self.old master }
        requires counts { CountsAreLow self.old }
        ensures picks { (setup : Setup) (c : Configuration) → PartsShow setup c self.old
            → result ≡ transaction_of setup c master line event outcome }
        ensures shows { (setup : Setup) (c : Configuration) → PartsShow setup c self.old
            → PartsShow setup (after_connect c result) self.new }
    {
        let connected = connect(&mut self.rack, master, line, event, outcome);
        self.rack.spend(master);
        self.phase = Phase::Connected(connected.copy());
        connected
    }

    /// Moves the data of a transaction that was connected. `access` is the present access of its
    /// master.
    pub fn carry(&mut self, connected: &Connected, access: Option<Access>) -> Carried
        requires can { CanCarry self.old connected.now }
        requires counts { CountsAreLow self.old }
        ensures carried { (setup : Setup) (c : Configuration) → PartsShow setup c self.old
            → result ≡ carried_for c connected.now access }
        ensures shows { (setup : Setup) (c : Configuration) → PartsShow setup c self.old
            → PartsShow setup (after_data c result) self.new }
    {
        let access = served(access, connected.line);
        let carried = transfer(&mut self.rack, &mut self.memory, connected, access);
        let completes = carried.done.is_some();
        complete_if(completes, &mut self.places, connected.master);
        self.phase = Phase::Idle;
        carried
    }
}
