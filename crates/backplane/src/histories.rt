//! The completed accesses of each board, in lists whose room is reserved beforehand.

ghost use Rattle.std.specs.Prelude.{◌≡◌, ◌≤◌, ◌<◌, ◌++◌, ◌∷◌, [], length, slice_index_or, slice_set, IfOk, IsSome};
ghost use Rattle.class_relation.specs.Rows.{rows};
ghost use Rattle.backplane.specs.Rooms.{rooms};
ghost use Rattle.backplane.specs.Histories.{empty_histories, history_of, room_of, added, kept};

use bus_signals::BoardNo;
use flat_memory::Entry;
use journal::Done;
use no_memory::NoMemory;
use std::alloc::Global;
use std::marker::Model;

/// The completed accesses of each board. Contracts see a list for each board, with the number of
/// entries that it has room for.
#[derive(Drop)]
pub struct Histories {
    lists: Vec<Vec<Entry>>,
}

impl Model for Histories {
    ghost use Rattle.class_relation.specs.Rows.{rows};
    ghost use Rattle.backplane.specs.Rooms.{rooms};
    ghost use Rattle.backplane.specs.Histories.{Histories};

    ghost Value = { Histories };

    ghost view = { λ h. record { entries = rows h.lists.items; rooms = rooms h.lists.items } };
}

/// Adds an item to one of these lists.
fn push_at<T: Copy + Drop>(lists: &mut Vec<Vec<T>>, place: usize, item: T)
    requires there { place < length lists.old.items }
    requires room { length (slice_index_or (rows lists.old.items) place [])
        < slice_index_or (rooms lists.old.items) place 0 }
    ensures items { rows lists.new.items
        ≡ slice_set (rows lists.old.items) place
        (slice_index_or (rows lists.old.items) place [] ++ item ∷ []) }
    ensures rooms { rooms lists.new.items ≡ rooms lists.old.items }
{
    let list = &mut lists[place];
    list.push_reserved(item);
}

impl Histories {
    /// Empty lists, each with room for this many entries.
    pub fn new(alloc: Global, rooms: &[usize]) -> Result<Histories, NoMemory>
        ensures { IfOk result (λ histories. histories ≡ empty_histories rooms.now) }
    {
        let mut lists = Vec::new(alloc);
        for room in rooms {
            let Ok(list) = Vec::with_capacity(alloc, *room) else {
                return Err(NoMemory);
            };
            let Ok(()) = lists.push(list) else {
                return Err(NoMemory);
            };
        }
        Ok(Histories { lists })
    }

    /// Adds an entry to the list of a board.
    fn push(&mut self, board: BoardNo, entry: Entry)
        requires low { 1 ≤ board }
        requires high { board ≤ length self.old.entries }
        requires room { length (history_of self.old board) < room_of self.old board }
        ensures { self.new ≡ added self.old board entry }
    {
        push_at(&mut self.lists, board.0 as usize - 1, entry);
    }

    /// Keeps the access of this place that a board has completed, if it has completed one.
    pub fn keep(&mut self, board: BoardNo, place: u32, done: &Option<Done>)
        requires low { 1 ≤ board }
        requires high { board ≤ length self.old.entries }
        requires room { IsSome done.now
            → length (history_of self.old board) < room_of self.old board }
        ensures { self.new ≡ kept self.old board place done.now }
    {
        if let Some(done) = done {
            self.push(
                board,
                Entry {
                    board,
                    place,
                    access: done.access,
                    reply: done.reply,
                },
            );
        }
    }

    /// The entries of a board, in order.
    pub fn of(&self, board: BoardNo) -> &[Entry]
        requires low { 1 ≤ board }
        requires high { board ≤ length self.now.entries }
        ensures { result.now ≡ history_of self.now board }
    {
        &self.lists[board.0 as usize - 1]
    }
}
