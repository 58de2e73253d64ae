//! Whether a board may complete an access by itself.

ghost use Rattle.std.specs.Prelude.{◌≡◌, ◌||◌, not};
ghost use Rattle.bus_model.specs.Events.{Local};
ghost use Rattle.bus_model.specs.Steps.{is_quiet};
ghost use Rattle.backplane.specs.Parts.{IsPartOf};
ghost use Rattle.backplane.specs.Permits.{TellsFor};

use crate::parts::Parts;
use crate::permits::cell::{cell_of, has_local, line_of};
use crate::permits::same::{all_hold, is_access, is_reply, is_state};
use crate::plan::{is_quiet, reply_of};
use bus_signals::{Access, BoardNo};
use class_relation::LocalAction;
use data_phase::copy_words;
use journal::Done;
use moesi_state::{Outcome, State};

/// Whether an access may go on where its line is held, if it is.
fn may_go_on(held: bool, access: &Access, before: State, after: State) -> bool
    ensures { result ≡ (not held || is_quiet access.now before after) }
{
    !held || is_quiet(access, before, after)
}

/// Whether a board with this present access may complete it by itself: it is not connected, some
/// alternative leads from the one state to the other without the bus, the reply is the row's word,
/// and a line that is held from it stays as it is.
pub fn permits_local(
    parts: &Parts,
    access: &Access,
    board: BoardNo,
    before: State,
    after: State,
    done: &Done,
) -> bool
    requires { IsPartOf parts.now board }
    ensures { TellsFor parts.now board access.now (Local board before after done.now) result }
{
    let action = LocalAction {
        result: Outcome::Fixed(after),
        bus: None,
    };
    let line = line_of(access);
    let present = is_access(access, &done.access);
    let connected = parts.phase.is_connected(board);
    let same = is_state(parts.rack.state_of(board, line), before);
    let alternative = has_local(cell_of(&parts.rack, board, access), &action);
    let held = parts.phase.held_by(board, line).is_some();
    let stays = may_go_on(held, access, before, after);
    let replied = is_reply(
        done.reply,
        reply_of(access, copy_words(&parts.rack, board, line)),
    );
    all_hold(&[present, !connected, same, alternative, stays, replied])
}
