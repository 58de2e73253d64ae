//! A worker for each board on one shared machine.
//!
//! # The machine between threads
//!
//! `Racing` is a machine that boards move in turns: its base is the setup, and its history is the
//! journal, each event with the board that made it. A step of a board is one turn of the machine.
//! The turns go by the rule of the crate ruled_turn, so there is one history for all boards, and
//! each seat knows what of it the board has seen.
//!
//! # The workers
//!
//! `work` makes the turns of one seat, until the board's script is at its end or the seat has made
//! all its turns. It passes the gate before each turn. `work_all` gives each seat a worker in a
//! thread of its own. `race` opens a machine, has all its seats worked, and closes it. It then
//! knows that the machine is finished, since each board's script was at its end in what its seat
//! had seen, and no later event takes a board back. Only where a seat has made all its turns, which
//! are 2^40, rounds end what is left.
//!
//! # How the boards mix
//!
//! If all workers were awake, the machine would go from thread to thread and most turns would come
//! to nothing. If one were awake, its board would have the bus again and again, and the history
//! would be one board after another. So there are two places. Two threads that are awake hand the
//! turn to each other without sleeping, and their boards mostly have the bus by turns: while one
//! has it the other requests it, and is granted it next.
//!
//! - **Place.** A worker that has made 240 events since its last rest gives its place to the next
//!   board above its own whose worker rests, or else to the lowest. So the places go round all
//!   boards. A worker whose board's script is at its end gives its place on in the same way, or
//!   leaves it free if nobody rests, and a worker without a place takes a free one.
//! - **Rest.** Any other worker without a place rests, on the bell of its board. A rest ends when
//!   another worker rings the bell, or after ten milliseconds, so a race goes on even if nobody
//!   rings.
//! - **Visit.** After each rest a worker makes two turns, even without a place. A worker that waits
//!   for a board whose worker rests rings its bell. A board that was granted the bus while its
//!   worker rested connects and carries its data in these two turns, and keeps nobody waiting any
//!   longer.
//! - **Pause.** A worker with a place that has waited in 64 turns in a row pauses for 50
//!   microseconds, since the thread that it waits for is not running.
//!
//! # What is not claimed
//!
//! That these calls return, that a thread runs, or that a turn comes. That the workers run beside
//! each other and pass the gate is shown by tests.
#![tactic(auto)]

mod bells;
mod racing;
mod run;
mod workers;

pub use racing::Racing;
pub use run::{RaceFault, race};
pub use workers::{work, work_all};
