//! Gates that count the turns of a race's workers, and hold some of them.

use bus_signals::BoardNo;
use fb_edge::Gate;
use std::sync::atomic::{AtomicBool, AtomicU64, Ordering};
use std::thread;

/// How often a gate looks for a turn that it waits for before it gives up.
const MOST_LOOKS: u32 = 100_000_000;

/// Waits for the mark to be set. Answers whether it was.
fn is_seen(mark: &AtomicBool) -> bool {
    for _ in 0..MOST_LOOKS {
        if mark.load(Ordering::SeqCst) {
            return true;
        }
        thread::yield_now();
    }
    false
}

/// How often each of four boards has come to a gate.
#[derive(Drop)]
pub struct Calls {
    boards: [AtomicU64; 4],
}

impl Calls {
    fn new() -> Calls {
        Calls {
            boards: [
                AtomicU64::new(0),
                AtomicU64::new(0),
                AtomicU64::new(0),
                AtomicU64::new(0),
            ],
        }
    }

    fn add(&self, board: BoardNo) {
        if let Some(calls) = self.boards.get((board.0 as usize).wrapping_sub(1)) {
            calls.fetch_add(1, Ordering::SeqCst);
        }
    }

    /// How often a board has come.
    pub fn of(&self, board: BoardNo) -> u64 {
        match self.boards.get((board.0 as usize).wrapping_sub(1)) {
            Some(calls) => calls.load(Ordering::SeqCst),
            None => 0,
        }
    }
}

/// Holds the first turn of each of the boards 1 and 2 until that of the other has come.
#[derive(Drop)]
pub struct Meeting {
    pub calls: Calls,
    first: AtomicBool,
    second: AtomicBool,
    // How many of the two have seen the other.
    met: AtomicU64,
}

impl Meeting {
    pub fn new() -> Meeting {
        Meeting {
            calls: Calls::new(),
            first: AtomicBool::new(false),
            second: AtomicBool::new(false),
            met: AtomicU64::new(0),
        }
    }

    // Marks that one board has come, and waits for the other.
    fn meet(&self, own: &AtomicBool, other: &AtomicBool) {
        own.store(true, Ordering::SeqCst);
        if is_seen(other) {
            self.met.fetch_add(1, Ordering::SeqCst);
        }
    }

    /// Whether each of the two has seen the other.
    pub fn have_met(&self) -> bool {
        self.met.load(Ordering::SeqCst) == 2
    }
}

impl Gate for Meeting {
    fn pass(&self, board: BoardNo, turn: u64) {
        self.calls.add(board);
        if turn == 0 && board.0 == 1 {
            self.meet(&self.first, &self.second);
        }
        if turn == 0 && board.0 == 2 {
            self.meet(&self.second, &self.first);
        }
    }
}

/// Holds the first turn of each board but the first until the first board has come to its fifth
/// turn.
#[derive(Drop)]
pub struct HeadStart {
    pub calls: Calls,
    ahead: AtomicBool,
    // How many boards gave up waiting.
    unseen: AtomicU64,
}

impl HeadStart {
    pub fn new() -> HeadStart {
        HeadStart {
            calls: Calls::new(),
            ahead: AtomicBool::new(false),
            unseen: AtomicU64::new(0),
        }
    }

    /// Whether each board that was held has seen the first board ahead.
    pub fn was_seen(&self) -> bool {
        self.unseen.load(Ordering::SeqCst) == 0
    }
}

impl Gate for HeadStart {
    fn pass(&self, board: BoardNo, turn: u64) {
        self.calls.add(board);
        if board.0 == 1 {
            if turn == 4 {
                self.ahead.store(true, Ordering::SeqCst);
            }
            return;
        }
        if turn == 0 && !is_seen(&self.ahead) {
            self.unseen.fetch_add(1, Ordering::SeqCst);
        }
    }
}
