//! One turn, step by step.

ghost use Rattle.std.specs.Prelude.{◌≡◌, ◌^◌, ◌<◌, [], ◌∷◌, Some, None};
ghost use Rattle.ruled_turn.specs.Entries.{of, GoesOn, Turns};
ghost use Rattle.ruled_turn.specs.Views.{resting, waiting, seen_by, mine_of, number_of, turns_of, with_value, with_turn};
ghost use Rattle.ruled_turn.specs.Seats.{given};

use super::{COUNT, Place, Ruled, SERVING, TICKET, VALUE};
use crate::plays::{Draw, Enter, Give, Leave, Look};
use crate::turned::Turned;
use std::hint;
use std::sync::Wait;
use std::time::Duration;

// How often a seat looks before it sleeps. This takes longer than waking a thread, or else
// two seats that take turns could put each other to sleep again and again.
const MOST_LOOKS: u32 = 5_000;

// A seat that sleeps looks again after this many milliseconds even if nobody wakes it.
const LONGEST_SLEEP: u64 = 10;

impl<M: Turned> Ruled<M> {
    // Waits after a look that found another ticket served, and says how many looks were made since
    // the last sleep. It sleeps only while that ticket is still served.
    fn wait<R: Wait>(&self, rt: &R, serving: u64, looks: u32) -> u32 {
        if looks < MOST_LOOKS {
            hint::spin_loop();
            return looks + 1;
        }
        let expected = (serving % (1 << 32)) as u32;
        self.table.shared.park_timeout(rt, SERVING, expected, Duration::from_millis(LONGEST_SLEEP));
        0
    }

    // Wakes the seats that sleep, after this ticket has left. If no later ticket has been drawn by
    // now, whoever draws the next one sees that this one has left.
    fn wake(&self, ticket: u64) {
        let desk = &self.table.shared;
        if desk.peek(TICKET).wrapping_sub(ticket) > 1 {
            desk.wake_all(SERVING);
        }
    }

    // Looks until it is the ticket's turn, and takes the value out of the slot.
    fn take<R: Wait>(&self, rt: &R, place: &mut Place<M>, ticket: u64) -> M
        requires table { place.old.table_id ≡ self.now.table.shared.table_id }
        requires waits { place.old.me ≡ (waiting ticket place.old.me.0, []) }
        ensures table { (place.new.table_id ≡ place.old.table_id) × (place.new.id ≡ place.old.id) }
        ensures place { place.new.me
            ≡ (with_value (M.entries result) place.old.me.0, (0, None) ∷ []) }
        ensures base { place.old.me.0.base ≡ Some (M.base result) }
        ensures seen { GoesOn (seen_by place.old.me.0) (M.entries result) }
        ensures mine { mine_of place.old.me.0 ≡ of (number_of place.old.me.0) (M.entries result) }
    {
        let desk = &self.table.shared;
        let mut looks = 0u32;
        for _ in rt.forever() {
            let serving = desk.load::<Look<M>>(place, SERVING);
            if serving == ticket {
                return desk.exchange(place, VALUE, None).unwrap();
            }
            looks = self.wait(rt, serving, looks);
        }
        unreachable!()
    }

    // Draws a ticket, has the value step once when its turn has come, and lets the next ticket have
    // its turn.
    pub(super) fn step<R: Wait>(&self, rt: &R, place: &mut Place<M>, number: u32) -> M::Answer
        requires table { place.old.table_id ≡ self.now.table.shared.table_id }
        requires rests { place.old.me
            ≡ (resting number (turns_of place.old.me.0) place.old.me.0, []) }
        requires turns { turns_of place.old.me.0 < 2 ^ 40 }
        requires based { place.old.me.0.base ≡ Some (M.base (given self.now)) }
        requires admitted { M.admits (M.base (given self.now)) number }
        ensures table { (place.new.table_id ≡ place.old.table_id) × (place.new.id ≡ place.old.id) }
        ensures place { place.new.me
            ≡ (with_turn number (seen_by place.new.me.0) place.old.me.0, []) }
        ensures turn { Turns number
            (λ before after. M.replies (M.base (given self.now)) before number result after)
            (seen_by place.old.me.0) (mine_of place.old.me.0)
            (seen_by place.new.me.0) (mine_of place.new.me.0) }
    {
        let desk = &self.table.shared;
        let ticket = desk.fetch_add::<Draw>(place, TICKET, 1);
        let mut value = self.take(rt, place, ticket);
        let before = value.length();
        let answer = value.step(number);
        let grown = value.length() - before;
        match desk.exchange(place, VALUE, Some(value)) {
            None => {}
            Some(_) => unreachable!(),
        }
        desk.fetch_add::<Enter<M>>(place, COUNT, grown);
        desk.load::<Give>(place, SERVING);
        desk.fetch_add::<Leave>(place, SERVING, 1);
        self.wake(ticket);
        answer
    }
}
