//! An audit that can be printed.

use crate::room::Room;
use audit::Audit;
use fb_text::Text;
use std::marker::Model;

/// An audit, and what is printed after its events: the line that tells what was found, and maybe
/// why. Each of its events has a line, so printing tests none of them.
#[derive(Drop)]
pub struct Told {
    pub audit: Audit,
    pub last: Text,
    pub room: Room,
}

impl Model for Told {
    ghost use Rattle.std.specs.List.{AllByRecursion};
    ghost use Rattle.trace_text.specs.Ranges.{InRange};
    ghost use Rattle.run_text.specs.RunLines.{IsTyped};
    ghost use Rattle.fb_cli.specs.Told.{Told};

    ghost Value = { Told };

    ghost view = { λ t. record { audit = t.audit; last = t.last } };

    ghost invariant = { λ t.
        AllByRecursion (λ event. IsTyped event → InRange event) t.audit.journal };
}
