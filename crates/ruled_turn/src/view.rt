//! What the holder of a seat knows, and what is fixed when the rule begins. Of these types, only
//! `Opening` has a value when the program runs.

use std::collections::LinkedList;
use std::snapshot::Snapshot;

/// What is known of one seat.
pub(crate) struct Account<E> {
    pub number: u32,
    /// The list of the value at the seat's last turn.
    pub seen: LinkedList<(u32, E)>,
    /// The entries that the seat made.
    pub mine: LinkedList<(u32, E)>,
    /// How many turns the seat has begun.
    pub turns: u64,
}

/// What one view knows. It stands for the seats of its accounts, and one with none is spent.
pub(crate) struct View<B, E> {
    /// The base of the value, where the view is not spent.
    pub base: Option<B>,
    pub accounts: LinkedList<Account<E>>,
    /// The ticket that the view has drawn and has not left yet.
    pub ticket: Option<u64>,
    /// The value is out with this view.
    pub holds: bool,
    /// The turn of the ticket is in the history.
    pub entered: bool,
}

/// What is fixed when the rule begins: the value as it was given, and the number of seats.
pub(crate) struct Opening<M> {
    pub value: Snapshot<M>,
    pub seats: u32,
}

impl<M> Drop for Opening<M> {
    fn drop(self) {
        let Self { value, seats: _ } = self;
        drop(value);
    }
}
