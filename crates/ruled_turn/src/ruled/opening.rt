//! How a value comes under the rule.

ghost use Rattle.std.specs.Prelude.{◌≡◌, ℕ, ◌+◌, ◌^◌, ◌<◌, ◌≤◌, [], length, All, IfOk, IfErr, slice_get, Some};
ghost use Rattle.ruled_turn.specs.Views.{idle, fresh};
ghost use Rattle.ruled_turn.specs.Seats.{given, seats_of, IsSeatOf, IsNew, undealt};

use super::{BoardSeat, OpenFault, Place, Ruled, VALUE};
use crate::plays::Deal;
use crate::turned::Turned;
use crate::view::Opening;
use atomic_table::{Refused, Table};
use std::alloc::Global;
use std::snapshot::Snapshot;

// The table with the value in it, and the seat that stands for all.
fn lay<M: Turned>(alloc: Global, value: M, seats: u32) -> Result<(Ruled<M>, Place<M>), OpenFault<M>>
    requires seats { (0 < seats) × (seats ≤ 1024) }
    requires short { length (M.entries value) < 2 ^ 49 }
    ensures ruled { IfOk result (λ r. (given r.0 ≡ value) × (seats_of r.0 ≡ seats)) }
    ensures table { IfOk result (λ r. r.1.table_id ≡ r.0.table.shared.table_id) }
    ensures place { IfOk result
        (λ r. r.1.me ≡ (idle (Some (M.base value)) (fresh (M.entries value) 1 seats), [])) }
    ensures handed_back { IfErr result (λ f. f.value ≡ value) }
{
    let Ok(mut slot) = Vec::with_capacity(alloc, 1) else {
        return Err(OpenFault { value });
    };
    let words = [0, 0, value.length()];
    let about = Opening {
        value: Snapshot::of(&value),
        seats,
    };
    slot.push_reserved(Some(value));
    match Table::new(alloc, &words, slot, &about) {
        Ok((table, place)) => Ok((Ruled { table }, place)),
        Err(Refused { slots: mut slot }) => {
            let value = slot.pop().unwrap().unwrap();
            slot.destroy_empty();
            Err(OpenFault { value })
        }
    }
}

impl<M: Turned> Ruled<M> {
    // A seat for the first number that the opener still stands for.
    fn deal(&self, opener: &mut Place<M>, number: u32) -> BoardSeat<M>
        requires table { opener.old.table_id ≡ self.now.table.shared.table_id }
        requires opener { opener.old.me ≡ (undealt M.base M.entries self.now number, []) }
        requires number { (0 < number) × (number ≤ seats_of self.now) }
        requires admitted { M.admits (M.base (given self.now)) number }
        ensures table { opener.new.table_id ≡ opener.old.table_id }
        ensures opener { opener.new.me ≡ (undealt M.base M.entries self.now (number + 1), []) }
        ensures own { IsSeatOf M.base M.admits self.now result }
        ensures new { IsNew M.entries self.now number result }
    {
        BoardSeat {
            place: self.table.shared.split_seat::<Deal>(opener),
            number,
            turns: 0,
        }
    }

    /// Makes the seats 1 to `seats`, in this order. The value's base admits each of these numbers.
    pub fn new(
        alloc: Global,
        value: M,
        seats: u32,
    ) -> Result<(Ruled<M>, Vec<BoardSeat<M>>), OpenFault<M>>
        requires seats { (0 < seats) × (seats ≤ 1024) }
        requires admitted { (n : ℕ) → 0 < n → n ≤ seats → M.admits (M.base value) n }
        requires short { length (M.entries value) < 2 ^ 49 }
        ensures given { IfOk result (λ r. given r.0 ≡ value) }
        ensures seats { IfOk result (λ r. (seats_of r.0 ≡ seats) × (length r.1.items ≡ seats)) }
        ensures own { IfOk result (λ r. All (IsSeatOf M.base M.admits r.0) r.1.items) }
        ensures new { IfOk result (λ r.
            (k : ℕ) (s : _) → slice_get r.1.items k ≡ Some s → IsNew M.entries r.0 (k + 1) s) }
        ensures handed_back { IfErr result (λ f. f.value ≡ value) }
    {
        let Ok(mut list) = Vec::with_capacity(alloc, seats as usize) else {
            return Err(OpenFault { value });
        };
        let (ruled, mut opener) = lay(alloc, value, seats)?;
        for number in 0..seats {
            list.push_reserved(ruled.deal(&mut opener, number + 1));
        }
        Ok((ruled, list))
    }
}
