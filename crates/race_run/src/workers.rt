//! The workers: the turns of one seat, and of each seat from a thread of its own.

ghost use Rattle.std.specs.Prelude.{◌≡◌, ◌+◌, ◌^◌, ◌<◌, All, IfOk, IfErr, IsTrue, OnOk, IsErr, length};
ghost use Rattle.ruled_turn.specs.Entries.{GoesOn};
ghost use Rattle.ruled_turn.specs.Seats.{number, seen, mine, turns};
ghost use Rattle.race_run.specs.Workers.{IsSeat, IsDone, HasWorked, AreLater};

use crate::bells::{Bells, Pace};
use crate::racing::Racing;
use backplane::Moved;
use bus_signals::BoardNo;
use fb_edge::Gate;
use ruled_turn::{BoardSeat, Ruled, Spent};
use std::sync::Wait;
use std::thread;
use std::thread::Threads;

// A turn of a seat, with what its worker does after it. It answers whether the board's script is at
// its end.
fn is_done_after_turn<R: Wait>(
    rt: &R,
    shared: &Ruled<Racing>,
    seat: &mut BoardSeat<Racing>,
    bells: &Bells,
    pace: &mut Pace,
) -> Result<bool, Spent>
    requires { IsSeat shared.now seat.old }
    ensures own { IsSeat shared.now seat.new }
    ensures number { number seat.new ≡ number seat.old }
    ensures seen { GoesOn (seen seat.old) (seen seat.new) }
    ensures mine { GoesOn (mine seat.old) (mine seat.new) }
    ensures ended { IfOk result (λ done. IsTrue done → IsDone shared.now seat.new) }
    ensures counted { OnOk result (turns seat.new ≡ turns seat.old + 1) }
    ensures spent { IfErr result (λ e. (turns seat.new ≡ 2 ^ 40) × (e.turns ≡ 2 ^ 40)) }
    ensures spent_before { turns seat.old ≡ 2 ^ 40 → IsErr result }
{
    let moved = shared.turn(rt, seat)?;
    bells.after_turn(BoardNo(seat.number() as u8), moved, pace);
    Ok(matches!(moved, Moved::Finished))
}

// What `work` does, with the bells of all boards.
fn work_with<G: Gate, R: Wait>(
    rt: &R,
    shared: &Ruled<Racing>,
    seat: &mut BoardSeat<Racing>,
    gate: &G,
    bells: &Bells,
) -> Result<(), Spent>
    requires { IsSeat shared.now seat.old }
    ensures own { IsSeat shared.now seat.new }
    ensures number { number seat.new ≡ number seat.old }
    ensures seen { GoesOn (seen seat.old) (seen seat.new) }
    ensures mine { GoesOn (mine seat.old) (mine seat.new) }
    ensures ended { OnOk result (IsDone shared.now seat.new) }
    ensures turned { OnOk result (turns seat.old < turns seat.new) }
    ensures spent { IfErr result (λ e. (turns seat.new ≡ 2 ^ 40) × (e.turns ≡ 2 ^ 40)) }
    ensures spent_before { turns seat.old ≡ 2 ^ 40 → IsErr result }
{
    let mut pace = Pace::new();
    for _ in rt.forever() {
        bells.before_turn(rt, BoardNo(seat.number() as u8), &mut pace);
        gate.pass(BoardNo(seat.number() as u8), seat.turns());
        if is_done_after_turn(rt, shared, seat, bells, &mut pace)? {
            return Ok(());
        }
    }
    unreachable!()
}

/// Makes the turns of a seat, and passes the gate before each. It goes on after each event and each
/// wait, and ends where the board's script is at its end, or where the seat has made all its turns.
pub fn work<G: Gate, R: Wait>(
    rt: &R,
    shared: &Ruled<Racing>,
    seat: &mut BoardSeat<Racing>,
    gate: &G,
) -> Result<(), Spent>
    requires { IsSeat shared.now seat.old }

    // Whatever the answer, it is the same seat, and what it knows goes on.
    ensures own { IsSeat shared.now seat.new }
    ensures number { number seat.new ≡ number seat.old }
    ensures seen { GoesOn (seen seat.old) (seen seat.new) }
    ensures mine { GoesOn (mine seat.old) (mine seat.new) }

    // The last turn found the script at its end, and each entry of what the seat has then seen is a
    // step of its board.
    ensures ended { OnOk result (IsDone shared.now seat.new) }
    ensures turned { OnOk result (turns seat.old < turns seat.new) }

    ensures spent { IfErr result (λ e. (turns seat.new ≡ 2 ^ 40) × (e.turns ≡ 2 ^ 40)) }
    ensures spent_before { turns seat.old ≡ 2 ^ 40 → IsErr result }
{
    work_with(rt, shared, seat, gate, &Bells::new())
}

/// Gives each seat a worker in a thread of its own, and returns when all of them have ended.
pub fn work_all<G: Gate + Sync, R: Threads + Wait + Sync>(
    rt: &R,
    shared: &Ruled<Racing>,
    seats: &mut [BoardSeat<Racing>],
    gate: &G,
)
    requires { All (IsSeat shared.now) seats.old }
    ensures length { length seats.new ≡ length seats.old }
    ensures own { All (IsSeat shared.now) seats.new }
    ensures later { AreLater seats.old seats.new }
    ensures worked { All (HasWorked shared.now) seats.new }
{
    let bells = Bells::new();
    let threads = seats.len().max(1);
    thread::for_each_mut(
        rt,
        seats,
        threads,
        &|_, seat| {
            let _ = work_with(rt, shared, seat, gate, &bells);
        },
    );
}
