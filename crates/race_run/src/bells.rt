//! Which workers of a race play, and where the others rest.

use backplane::{Moved, Why};
use bus_signals::BoardNo;
use std::sync::Wait;
use std::sync::atomic::{AtomicU64, Ordering};
use std::thread::Parker;
use std::time::Duration;

// How many workers have a place.
const PLACES: u64 = 2;

// A worker passes on its place after this many events.
const SHARE: u32 = 240;

// A worker without a place makes this many turns after each rest.
const VISIT: u32 = 2;

// A rest ends after this many milliseconds even if nobody rings.
const LONGEST_REST: u64 = 10;

// A worker with a place pauses after this many turns in a row that waited.
const MOST_WAITS: u32 = 64;

// A pause in microseconds.
const PAUSE: u64 = 50;

// The board that another one waits for.
fn master_of(why: Why) -> BoardNo {
    match why {
        Why::Line { master, line: _ } => master,
        Why::Bus { master } => master,
    }
}

// The bit of a board in a word.
fn bit(board: BoardNo) -> u64 {
    1u64.wrapping_shl(board.0 as u32)
}

/// How a worker stands: whether it has a place, how many turns it has left without one, how many
/// events it has made since its last rest, and how many of its last turns waited.
#[derive(Drop)]
pub(crate) struct Pace {
    has_place: bool,
    visit: u32,
    events: u32,
    waits: u32,
}

impl Pace {
    /// Before the first turn.
    pub(crate) fn new() -> Pace {
        Pace {
            has_place: false,
            visit: 0,
            events: 0,
            waits: 0,
        }
    }
}

/// A bell for each board of a machine, which has at most 16, the bits of the boards whose workers
/// rest, and the number of places that nobody has. The worker of a board rests on the bell of its
/// board.
#[derive(Drop)]
pub(crate) struct Bells {
    boards: [Parker; 16],
    resting: AtomicU64,
    free: AtomicU64,
}

impl Bells {
    pub(crate) fn new() -> Bells {
        Bells {
            boards: [
                Parker::new(),
                Parker::new(),
                Parker::new(),
                Parker::new(),
                Parker::new(),
                Parker::new(),
                Parker::new(),
                Parker::new(),
                Parker::new(),
                Parker::new(),
                Parker::new(),
                Parker::new(),
                Parker::new(),
                Parker::new(),
                Parker::new(),
                Parker::new(),
            ],
            resting: AtomicU64::new(0),
            free: AtomicU64::new(PLACES),
        }
    }

    fn of(&self, board: BoardNo) -> Option<&Parker> {
        self.boards.get((board.0 as usize).wrapping_sub(1))
    }

    fn ring(&self, board: BoardNo) {
        if let Some(bell) = self.of(board) {
            bell.unpark();
        }
    }

    // Wakes the worker of a board if it rests.
    fn call(&self, board: BoardNo) {
        if self.resting.load(Ordering::SeqCst) & bit(board) != 0 {
            self.ring(board);
        }
    }

    // Wakes the worker of a board if it rests, gives it a place, and says whether it did. A worker
    // that wakes and finds its bit gone knows that it has a place.
    fn give_place(&self, board: BoardNo) -> bool {
        let resting = self.resting.fetch_and(!bit(board), Ordering::SeqCst);
        if resting & bit(board) == 0 {
            return false;
        }
        self.ring(board);
        true
    }

    // Gives a place to the next board above this one whose worker rests, or else to the lowest, and
    // says whether it did.
    fn give_place_on(&self, board: BoardNo) -> bool {
        let resting = self.resting.load(Ordering::SeqCst);
        let above = resting & !bit(board).wrapping_mul(2).wrapping_sub(1);
        let next = if above == 0 { resting } else { above };
        next != 0 && self.give_place(BoardNo(next.trailing_zeros() as u8))
    }

    // Takes a place that nobody has, and says whether there was one.
    fn take_free_place(&self) -> bool {
        let free = self.free.load(Ordering::SeqCst);
        free > 0
            && self
                .free
                .compare_exchange(
                    free,
                    free.wrapping_sub(1),
                    Ordering::SeqCst,
                    Ordering::SeqCst,
                )
                .is_ok()
    }

    // Rests until the bell rings or the time is up.
    fn rest<R: Wait>(&self, rt: &R, board: BoardNo, pace: &mut Pace) {
        self.resting.fetch_or(bit(board), Ordering::SeqCst);
        if let Some(bell) = self.of(board) {
            bell.park_timeout(rt, Duration::from_millis(LONGEST_REST));
        }
        let resting = self.resting.fetch_and(!bit(board), Ordering::SeqCst);
        pace.has_place = resting & bit(board) == 0;
        pace.visit = VISIT;
        pace.events = 0;
        pace.waits = 0;
    }

    // Lets another thread run for a while.
    fn pause<R: Wait>(&self, rt: &R, pace: &mut Pace) {
        let bed = Parker::new();
        bed.park_timeout(rt, Duration::from_micros(PAUSE));
        pace.waits = 0;
    }

    /// Before a turn a worker without a place takes a free one, or else rests if its visit is over.
    /// A worker with a place pauses if it has waited for long.
    pub(crate) fn before_turn<R: Wait>(&self, rt: &R, board: BoardNo, pace: &mut Pace) {
        if !pace.has_place {
            pace.has_place = self.take_free_place();
        }
        if !pace.has_place && pace.visit == 0 {
            self.rest(rt, board, pace);
        }
        if pace.has_place && pace.waits >= MOST_WAITS {
            self.pause(rt, pace);
        }
        pace.visit = pace.visit.saturating_sub(1);
    }

    // A worker whose share is over passes on its place.
    fn after_event(&self, board: BoardNo, pace: &mut Pace) {
        pace.waits = 0;
        pace.events = pace.events.saturating_add(1);
        if pace.has_place && pace.events >= SHARE && self.give_place_on(board) {
            pace.has_place = false;
        }
    }

    // A worker that waits for a board whose worker rests wakes that one.
    fn after_wait(&self, why: Why, pace: &mut Pace) {
        pace.waits = pace.waits.saturating_add(1);
        self.call(master_of(why));
    }

    // A worker that ends passes on its place, or leaves it free.
    fn after_end(&self, board: BoardNo, pace: &mut Pace) {
        if pace.has_place && !self.give_place_on(board) {
            self.free.fetch_add(1, Ordering::SeqCst);
        }
        pace.has_place = false;
    }

    /// What a worker does after a turn, by what the turn came to.
    pub(crate) fn after_turn(&self, board: BoardNo, moved: Moved, pace: &mut Pace) {
        match moved {
            Moved::Did => self.after_event(board, pace),
            Moved::Waits(why) => self.after_wait(why, pace),
            Moved::Finished => self.after_end(board, pace),
        }
    }
}
