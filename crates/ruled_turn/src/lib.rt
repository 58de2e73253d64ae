//! A value that threads step in turns, in the order in which they draw tickets.
//!
//! # The value
//!
//! A `Turned` value stands for a base, which no step changes, and for a list of entries, each with
//! the number that made it. A step of the number n adds one entry of n at the end of the list, or
//! adds none and changes nothing.
//!
//! `Ruled::new` takes the value in and gives seats with the numbers 1, 2, 3 and so on.
//! `Ruled::turn` has the value step once as the number of a seat, from whichever thread holds the
//! seat. `Ruled::close` takes all seats and gives the value back. Only `new` takes memory.
//!
//! # What a seat knows
//!
//! Contracts see each seat's `number`, the list at its last turn (`seen`), the entries that it
//! made (`mine`) and how many turns it has made (`turns`). A turn shows that the list has gone on
//! from what the seat had seen, by entries of whichever seats, and then by the seat's own new entry
//! or by none. At the end the list goes on from what each seat has seen, its entries of the number
//! n are exactly those that seat n made, in their order, and every entry past the start is of a
//! seat. So no turn is lost, made twice, or made by nobody, and there is one history for all.
//!
//! # How a turn is made
//!
//! The value lies in the one slot of a table that has three words: `ticket` is the next ticket to
//! be drawn, `serving` is the ticket whose turn it is, and `count` is the length of the history. A
//! turn is five kinds of atomic step:
//!
//! 1. Draw: one is added to `ticket`. The seat has the ticket that stood there, and one turn more.
//! 2. Look: `serving` is read. While it is another ticket, the seat waits and looks again. The look
//!    that finds its own ticket takes the slot, and from then on the value is the seat's alone: it
//!    is read out of the slot, steps, and is written back into the slot, which nobody else can
//!    reach.
//! 3. Enter: one is added to `count` where the step made an entry, and nothing where it made none.
//!    With this step the entry is in the history. The seat has seen the whole history, and its own
//!    entries have grown by this one.
//! 4. Give: `serving` is read once more, and the slot goes back to the table.
//! 5. Leave: one is added to `serving`, and the seat has no ticket.
//!
//! `new` begins with one seat that stands for all, and splits the seats off one by one. `close`
//! joins the seats one by one, and closes the table with what is known of all of them.
//!
//! # How a seat waits
//!
//! Between two looks a seat only gives the processor a hint that it spins. After five thousand
//! looks it sleeps on the word `serving` until that moves. So many looks take longer than it takes
//! to wake a thread, so two seats that take turns go on without sleeping, even if one of them has
//! just been woken.
//!
//! A seat that has left wakes those that sleep, if a ticket later than its own has been drawn. No
//! wake is lost: a seat falls asleep only if `serving` still is what it read there, and a seat that
//! draws its ticket after the one that left looked at `ticket` finds that `serving` has moved. A
//! sleep compares only the low 32 bits of the word, so it also ends by itself after ten
//! milliseconds.
//!
//! Few seats should be at their turns at a time: each ticket that is out moves the value to another
//! thread. Whoever has more seats than that lets the others rest before they draw, as the crate
//! race_run does.
//!
//! None of this changes the table, and no clause speaks of it.
//!
//! # The rule
//!
//! What a seat knows is its view. The rule is a fact about the words, the slot and all views, and
//! it holds between any two steps of any threads:
//!
//! - `ticket` is `serving` plus the number of views with a ticket, and is the sum of all turns that
//!   were made.
//! - No two views have one ticket, and each ticket that is out lies from `serving` up to `ticket`.
//! - The value is in the slot and has the history as its list, or it is out with the view whose
//!   ticket is `serving`, which has seen the whole history.
//! - `count` is the length of the history, and is at most the length of the start plus `serving`,
//!   or one more while the ticket `serving` has entered.
//! - The history goes on from the start by entries of seats, and goes on from what each seat has
//!   seen. Its entries of the number n are those that seat n made.
//! - No two views stand for one seat, and all together stand for all seats.
//! - A seat has made at most 2^40 turns, so with 1,024 seats no word passes 2^51.
//! - Each view that stands for a seat has the base that the value had when it was given.
//!
//! `specs/Rule.antt` has the rule, `specs/Plays.antt` what each step tells, and proofs/ that each
//! step keeps the rule. That a ticket is ever served is not part of it: a turn waits for the turns
//! before it, and may wait for ever.
#![tactic(auto)]

mod plays;
mod ruled;
#[cfg(test)]
mod tests;
mod turned;
mod view;

pub use ruled::{BoardSeat, MOST_TURNS, OpenFault, Ruled, Spent};
pub use turned::Turned;
