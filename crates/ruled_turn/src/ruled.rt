//! A value under the rule, and its seats.

ghost use Rattle.std.specs.Prelude.{◌≡◌, ◌<◌, ◌≤◌, ◌^◌, []};
ghost use Rattle.ruled_turn.specs.Views.{resting};

use crate::plays::Turns;
use crate::turned::Turned;
use crate::view::{Opening, View};
use atomic_table::{Seat, Table};
use std::alloc::Global;

mod closing;
mod opening;
mod seats;
mod steps;
mod turning;

// The words of the table.
const TICKET: usize = 0;

const SERVING: usize = 1;

const COUNT: usize = 2;

// The slot of the table.
const VALUE: usize = 0;

/// A seat makes at most this many turns, so that no word of the table wraps.
pub const MOST_TURNS: u64 = 1 << 40;

type Place<M> = Seat<Option<M>, View<<M as Turned>::Base, <M as Turned>::Entry>>;

/// A value that its seats step in turns. Contracts see the value that was given and the number of
/// seats.
pub struct Ruled<M: Turned> {
    table: Table<Option<M>, View<M::Base, M::Entry>, Opening<M>, Turns, Global>,
    ghost sized: { (table.shared.table_id.words ≡ 3) × (table.shared.table_id.slots ≡ 1) },
    ghost seated: { 0 < table.shared.key.seats },
}

/// The right to make turns under one number. Contracts see the number, the turns that were made,
/// the list at the last of them, and the entries of this seat in it.
#[derive(Drop)]
pub struct BoardSeat<M: Turned> {
    place: Place<M>,
    number: u32,
    turns: u64,
    ghost few: { turns ≤ 2 ^ 40 },
    ghost rests: { place.me ≡ (resting number turns place.me.0, []) },
}

/// The seat has made all its turns, which are 2^40.
#[derive(Debug, Drop)]
pub struct Spent {
    pub turns: u64,
}

/// There was no memory. The value comes back as it was given.
pub struct OpenFault<M> {
    pub value: M,
}
