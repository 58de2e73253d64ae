//! How a value comes out of the rule again.

ghost use Rattle.std.specs.Prelude.{◌≡◌, ◌<◌, [], length, map, All, Some};
ghost use Rattle.ruled_turn.specs.Entries.{of, GoesOn, GoesOnBySeats};
ghost use Rattle.ruled_turn.specs.Views.{idle};
ghost use Rattle.ruled_turn.specs.Seats.{account_of, given, seats_of, IsSeatOf, number, seen, mine};

use super::{BoardSeat, Place, Ruled, VALUE};
use crate::plays::Gather;
use crate::turned::Turned;

impl<M: Turned> Ruled<M> {
    // One view for all these seats.
    fn gather(&self, mut seats: Vec<BoardSeat<M>>) -> Place<M>
        requires seats { All (IsSeatOf M.base M.admits self.now) seats.items }
        requires all { 0 < length seats.items }
        ensures table { result.table_id ≡ self.now.table.shared.table_id }
        ensures place { result.me
            ≡ (idle (Some (M.base (given self.now))) (map account_of seats.items), []) }
    {
        let last = seats.pop().unwrap();
        let BoardSeat {
            place: mut all,
            number: _,
            turns: _,
        } = last;
        while let Some(seat) = seats.pop() {
            let BoardSeat {
                place,
                number: _,
                turns: _,
            } = seat;
            self.table.shared.join_seat::<Gather>(&mut all, place);
        }
        all
    }

    /// Gives the value back. The list has all seats: no two are the same, so their count shows it.
    pub fn close(self, seats: Vec<BoardSeat<M>>) -> M
        requires seats { All (IsSeatOf M.base M.admits self) seats.items }
        requires all { length seats.items ≡ seats_of self }
        ensures base { M.base result ≡ M.base (given self) }
        ensures seen { All (λ s. GoesOn (seen s) (M.entries result)) seats.items }
        ensures mine { All (λ s. mine s ≡ of (number s) (M.entries result)) seats.items }
        ensures past { GoesOnBySeats (seats_of self) (M.entries (given self)) (M.entries result) }
    {
        let closer = self.gather(seats);
        let Ruled { table } = self;
        let mut closed = table.close_with(closer);
        let value = closed.take(VALUE);
        closed.free();
        value.unwrap()
    }
}
