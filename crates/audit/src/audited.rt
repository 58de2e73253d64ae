//! What an audit found.

ghost use Rattle.std.specs.Prelude.{◌≡◌, ◌≤◌, ◌*◌, length, None};
ghost use Rattle.bus_model.specs.Setup.{access_count};
ghost use Rattle.audit.specs.First.{Audited, AllDone, first_harm};

use crate::finding::Finding;
use journal::Event;
use setup::Setup;
use std::marker::Model;

/// What an audit found, with the events so far. Contracts see it as these and the setup.
#[derive(Drop)]
pub struct Audit {
    setup: Setup,
    journal: Vec<Event>,
    finding: Option<Finding>,
}

impl Model for Audit {
    ghost use Rattle.audit.specs.First.{Audit, Audited};

    ghost Value = { Audit };

    ghost view = { λ a. record { setup = a.setup; journal = a.journal.items; finding = a.finding } };

    ghost invariant = { λ a. Audited (record { setup = a.setup; journal = a.journal.items; finding = a.finding }) };
}

impl Audit {
    /// The audit of a setup with these events and this finding.
    pub(crate) fn of(setup: Setup, journal: Vec<Event>, finding: Option<Finding>) -> Audit
        requires { Audited (record {
          setup = setup;
          journal = journal.items;
          finding = finding;
        }) }
        ensures { result ≡ record { setup = setup; journal = journal.items; finding = finding } }
    {
        Audit {
            setup,
            journal,
            finding,
        }
    }

    /// What happened, in order, up to the first harm.
    pub fn journal(&self) -> &[Event]
        ensures journal { result.now ≡ self.now.journal }
        ensures few { length self.now.journal ≤ 8 * access_count self.now.setup }
    {
        &self.journal
    }

    /// The first event with a harm after it. `None` where no event has one, and then every script
    /// is at its end.
    pub fn finding(&self) -> Option<Finding>
        ensures finding { result ≡ self.now.finding }
        ensures first { result ≡ first_harm self.now.setup self.now.journal }
        ensures ended { result ≡ None → AllDone self.now.setup self.now.journal }
    {
        self.finding
    }
}
