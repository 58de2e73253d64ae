//! The rule of the table, and the kinds of step on it with what each tells the seat that makes it.
//! These types are for the proofs alone: they have no values.

use crate::turned::Turned;
use crate::view::{Opening, View};
use atomic_table::{Join, Play, Split, TableRule};
use std::marker::PhantomData;

/// The rule that holds between any two steps.
pub(crate) struct Turns;

impl<M: Turned> TableRule<Option<M>, View<M::Base, M::Entry>, Opening<M>> for Turns {
    ghost use Rattle.ruled_turn.specs.Rule.{InTurn, opener};

    ghost holds = { InTurn M.base M.entries };

    ghost first = { opener M.base M.entries };
}

/// A ticket is drawn.
pub(crate) struct Draw;

impl<M, B, E> Play<Option<M>, View<B, E>> for Draw {
    ghost use Rattle.ruled_turn.specs.Plays.{drawn};

    ghost then = { drawn };
}

/// The ticket being served is read, and the slot is taken if that ticket is one's own.
pub(crate) struct Look<M> {
    value: PhantomData<M>,
}

impl<M: Turned> Play<Option<M>, View<M::Base, M::Entry>> for Look<M> {
    ghost use Rattle.ruled_turn.specs.Plays.{looked};

    ghost then = { looked M.base M.entries };
}

/// The new list of the value in hand becomes the history.
pub(crate) struct Enter<M> {
    value: PhantomData<M>,
}

impl<M: Turned> Play<Option<M>, View<M::Base, M::Entry>> for Enter<M> {
    ghost use Rattle.ruled_turn.specs.Plays.{entered};

    ghost then = { entered M.entries };
}

/// The slot goes back to the table.
pub(crate) struct Give;

impl<M, B, E> Play<Option<M>, View<B, E>> for Give {
    ghost use Rattle.ruled_turn.specs.Plays.{gave};

    ghost then = { gave };
}

/// The next ticket has its turn.
pub(crate) struct Leave;

impl<M, B, E> Play<Option<M>, View<B, E>> for Leave {
    ghost use Rattle.ruled_turn.specs.Plays.{left};

    ghost then = { left };
}

/// The first seat of a view goes to a view of its own.
pub(crate) struct Deal;

impl<B, E> Split<View<B, E>> for Deal {
    ghost use Rattle.ruled_turn.specs.Views.{other_part, first_part};

    ghost left = { other_part };

    ghost right = { first_part };
}

/// The seats of one view go to another.
pub(crate) struct Gather;

impl<B, E> Join<View<B, E>> for Gather {
    ghost use Rattle.ruled_turn.specs.Views.{together, spent};

    ghost both = { together };

    ghost spent = { spent };
}
