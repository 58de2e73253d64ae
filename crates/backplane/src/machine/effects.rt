//! What each event does to the machine. Each call adds its event to the journal.

ghost use Rattle.std.specs.Prelude.{◌≡◌};
ghost use Rattle.bus_model.specs.Configuration.{Connected as Connection};
ghost use Rattle.bus_model.specs.Events.{Transaction};
ghost use Rattle.bus_model.specs.Carrying.{carried_of};
ghost use Rattle.bus_model.specs.Turns.{transaction_of};
ghost use Rattle.backplane.specs.Machine.{MayHappen, happened, configuration};

use crate::machine::Machine;
use bus_signals::{BoardNo, BusEvent, LineNo};
use journal::{Connected, Done, Event};
use moesi_state::{Outcome, State};

impl Machine {
    /// A board completes its present access by itself.
    pub(crate) fn do_local(&mut self, board: BoardNo, before: State, after: State, done: Done)
        requires { MayHappen self.old (Event.Local board before after done) }
        ensures { self.new ≡ happened self.old (Event.Local board before after done) }
    {
        self.parts.settle(board, after, &done);
        let place = self.parts.place(board);
        self.histories.keep(board, place, &Some(done));
        self.journal.push_reserved(Event::Local {
            board,
            before,
            after,
            done,
        });
    }

    /// A board drops its row of a line.
    pub(crate) fn do_drop(&mut self, board: BoardNo, line: LineNo, before: State)
        requires { MayHappen self.old (Event.Drop board line before) }
        ensures { self.new ≡ happened self.old (Event.Drop board line before) }
    {
        self.parts.give_up(board, line);
        self.journal.push_reserved(Event::Drop {
            board,
            line,
            before,
        });
    }

    /// A board raises a request for the bus.
    pub(crate) fn do_raise(&mut self, board: BoardNo)
        requires { MayHappen self.old (Event.Raise board) }
        ensures { self.new ≡ happened self.old (Event.Raise board) }
    {
        self.parts.raise(board);
        self.journal.push_reserved(Event::Raise { board });
    }

    /// The bus is granted to the winner of the arbitration, in the turn of `by`.
    pub(crate) fn do_grant(&mut self, by: BoardNo, winner: BoardNo, lines: u16, rounds: u8)
        requires { MayHappen self.old (Event.Grant by winner lines rounds) }
        ensures { self.new ≡ happened self.old (Event.Grant by winner lines rounds) }
    {
        self.parts.grant(winner);
        self.journal.push_reserved(Event::Grant {
            by,
            winner,
            lines,
            rounds,
        });
    }

    /// A transaction is connected, with these answers.
    pub(crate) fn do_connect(&mut self, connected: Connected)
        requires { MayHappen self.old (Event.Connect connected) }
        ensures { self.new ≡ happened self.old (Event.Connect connected) }
    {
        self.parts.latch(&connected);
        self.journal.push_reserved(Event::Connect(connected));
    }

    /// A board connects a transaction, and each other board that holds the line answers as it
    /// picks.
    pub(crate) fn do_connect_as_picked(
        &mut self,
        board: BoardNo,
        line: LineNo,
        event: BusEvent,
        outcome: Outcome,
    )
        requires { MayHappen self.old (Event.Connect
            (transaction_of self.old.setup (configuration self.old) board line event outcome)) }
        ensures { self.new
            ≡ happened self.old (Event.Connect (transaction_of self.old.setup
            (configuration self.old) board line event outcome)) }
    {
        let connected = self.parts.connect(board, line, event, outcome);
        self.journal.push_reserved(Event::Connect(connected));
    }

    /// The data of the transaction that is connected moves.
    pub(crate) fn do_data(&mut self)
        requires { (t : Transaction) × ((configuration self.old).phase ≡ Connection t) }
        ensures { (t : Transaction) → (configuration self.old).phase ≡ Connection t
            → self.new
            ≡ happened self.old
            (Event.DataPhase (carried_of self.old.setup (configuration self.old) t)) }
    {
        let Some(connected) = self.parts.phase.connection() else {
            return;
        };
        let master = connected.master;
        let access = self.present(master);
        let carried = self.parts.carry(&connected, access);
        let place = self.parts.place(master);
        self.histories.keep(master, place, &carried.done);
        self.journal.push_reserved(Event::DataPhase(carried));
    }
}
