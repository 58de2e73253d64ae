//! A turn of a seat, as its caller sees it.

ghost use Rattle.std.specs.Prelude.{◌≡◌, ℕ, ◌+◌, ◌^◌, ◌<◌, IfOk, IfErr, OnOk, OnErr};
ghost use Rattle.ruled_turn.specs.Entries.{GoesOn, Turns};
ghost use Rattle.ruled_turn.specs.Seats.{given, IsSeatOf, number, seen, mine, turns};

use super::{BoardSeat, MOST_TURNS, Ruled, Spent};
use crate::turned::Turned;
use std::sync::Wait;

impl<M: Turned> Ruled<M> {
    /// Waits until it is the seat's turn, and has the value step once as the seat's number. A seat
    /// that has made 2^40 turns is spent, and neither waits nor steps.
    pub fn turn<R: Wait>(&self, rt: &R, seat: &mut BoardSeat<M>) -> Result<M::Answer, Spent>
        requires { IsSeatOf M.base M.admits self.now seat.old }

        // Whatever the answer, it is the same seat, and what it knows goes on.
        ensures own { IsSeatOf M.base M.admits self.now seat.new }
        ensures number { number seat.new ≡ number seat.old }
        ensures seen { GoesOn (seen seat.old) (seen seat.new) }
        ensures mine { GoesOn (mine seat.old) (mine seat.new) }

        ensures turned { IfOk result (λ answer. Turns (number seat.old)
            (λ before after.
            M.replies (M.base (given self.now)) before (number seat.old) answer after)
            (seen seat.old) (mine seat.old) (seen seat.new) (mine seat.new)) }
        ensures counted { OnOk result (turns seat.new ≡ turns seat.old + 1) }
        ensures unspent { OnOk result (turns seat.old < 2 ^ 40) }

        ensures spent { IfErr result (λ e. (turns seat.old ≡ 2 ^ 40) × (e.turns ≡ 2 ^ 40)) }
        ensures unchanged { OnErr result (seat.new ≡ seat.old) }
    {
        if seat.turns >= MOST_TURNS {
            return Err(Spent { turns: seat.turns });
        }
        let answer = self.step(rt, &mut seat.place, seat.number);
        seat.turns += 1;
        Ok(answer)
    }
}
