//! What is seen of a machine where a trace stops: its boards, what they are to do next, and who has
//! the bus.

use backplane::Machine;
use bus_signals::{Access, Addr, BoardNo, LineNo};
use class_relation::{LocalAction, Table};
use journal::Event;
use moesi_state::State;
use setup::Setup;

/// A machine, and the setup that it was made of.
#[derive(Drop)]
pub struct Seen {
    pub setup: Setup,
    pub machine: Machine,
}

/// Who has the bus.
#[derive(Clone, Copy, PartialEq, Eq)]
pub enum Phase {
    Idle,
    Granted(BoardNo),
    Connected(BoardNo),
}

impl Phase {
    /// Whether a board has the bus.
    pub fn is_of(self, board: BoardNo) -> bool {
        match self {
            Phase::Idle => false,
            Phase::Granted(master) => master == board,
            Phase::Connected(master) => master == board,
        }
    }
}

/// Who has the bus after these events.
fn phase_after(events: &[Event]) -> Phase {
    let mut phase = Phase::Idle;
    for event in events {
        phase = next_phase(phase, event);
    }
    phase
}

fn next_phase(phase: Phase, event: &Event) -> Phase {
    match event {
        Event::Grant { winner, .. } => Phase::Granted(*winner),
        Event::Connect(transaction) => Phase::Connected(transaction.master),
        Event::DataPhase(_) => Phase::Idle,
        Event::Local { board, .. } if phase == Phase::Granted(*board) => Phase::Idle,
        _ => phase,
    }
}

/// Whether a board has its request raised after one more event.
fn next_raised(raised: bool, event: &Event, board: BoardNo) -> bool {
    match event {
        Event::Raise { board: other } if *other == board => true,
        Event::Local { board: other, .. } if *other == board => false,
        Event::Grant { winner, .. } if *winner == board => false,
        _ => raised,
    }
}

impl Seen {
    /// Whether the setup has a board.
    pub fn has(&self, board: BoardNo) -> bool {
        if board.0 == 0 {
            return false;
        }
        board.0 <= self.machine.boards()
    }

    /// How many accesses a board has done.
    pub fn done(&self, board: BoardNo) -> usize {
        if board.0 > 0 && board.0 <= self.machine.boards() {
            self.machine.replies(board).len()
        } else {
            0
        }
    }

    /// The accesses of a board.
    pub fn script(&self, board: BoardNo) -> &[Access] {
        if board.0 > 0 && usize::from(board.0) <= self.setup.boards().len() {
            self.setup.script(board)
        } else {
            &[]
        }
    }

    /// The access that a board is to do next.
    pub fn present(&self, board: BoardNo) -> Option<Access> {
        self.script(board).get(self.done(board)).copied()
    }

    /// The state and the words of a board's copy of a line.
    pub fn copy(&self, board: BoardNo, line: LineNo) -> Option<(State, [u32; 4])> {
        if board.0 > 0 && board.0 <= self.machine.boards() {
            self.machine.copy(board, line)
        } else {
            None
        }
    }

    /// The state of a board's copy of a line.
    pub fn state(&self, board: BoardNo, line: LineNo) -> State {
        match self.copy(board, line) {
            Some((state, _)) => state,
            None => State::I,
        }
    }

    /// A word of a board's copy of its line.
    pub fn word(&self, board: BoardNo, addr: Addr) -> Option<u32> {
        let Some(copy) = self.copy(board, addr.line()) else {
            return None;
        };
        let words = copy.1;
        words.get(usize::from(addr.offset())).copied()
    }

    /// The table of a board.
    pub fn table(&self, board: BoardNo) -> Option<&Table> {
        let place = usize::from(board.0).checked_sub(1)?;
        let spec = self.setup.boards().get(place)?;
        self.setup.tables().get(spec.table as usize)
    }

    /// The alternatives that a board has for an access.
    pub fn cell(&self, board: BoardNo, access: &Access) -> &[LocalAction] {
        match self.table(board) {
            Some(table) => table.local(self.state(board, access.addr().line()), access.kind()),
            None => &[],
        }
    }

    /// Who has the bus.
    pub fn phase(&self) -> Phase {
        phase_after(self.machine.journal())
    }

    /// Whether a board has the bus.
    pub fn has_bus(&self, board: BoardNo) -> bool {
        self.phase().is_of(board)
    }

    /// Whether a board has its request raised.
    pub fn is_raised(&self, board: BoardNo) -> bool {
        let mut raised = false;
        for event in self.machine.journal() {
            raised = next_raised(raised, event, board);
        }
        raised
    }
}
