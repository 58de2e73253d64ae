//! How a board of each protocol answers, by the row of the event.

ghost use Rattle.std.specs.Prelude.{◌≡◌};
ghost use Rattle.std.specs.Option.{option_to_list};
ghost use Rattle.bus_signals.specs.Meanings.{keeps_copy as has_ca, takes_ownership as has_ca_and_im, serves_owner as is_served_by_owner};
ghost use Rattle.class_relation.specs.Tables.{answers_of};
ghost use Rattle.table_library.specs.Fitting.{is_asked as is_asked_of};
ghost use Rattle.table_library.specs.Rules.{has_state as can_have, gives_up as gives_up_to, owner_next as next_of_owner, sharer_next as next_of_sharer, next_state as next_of_holder, answer_to as answers_to, rule_answer};
ghost use Rattle.table_library.specs.Protocols.{protocol_table};

use crate::kinds::Kind;
use bus_signals::{BusEvent, Response};
use class_relation::{SnoopAction, comes};
use moesi_state::State;

/// Whether a board of this protocol can be in this state.
fn has_state(kind: Kind, state: State) -> bool
    ensures { result ≡ can_have kind state }
{
    match kind {
        Kind::Invalidate | Kind::Update | Kind::Exclusive => true,
        Kind::Through | Kind::ThroughBroadcast => !(state.owns() || state.alone()),
        Kind::Uncached => !state.holds(),
    }
}

/// Whether the master keeps a copy.
fn keeps_copy(event: BusEvent) -> bool
    ensures { result ≡ has_ca event }
{
    let (master, _) = event.signals();
    master.ca
}

/// Whether the master owns the line afterwards.
fn takes_ownership(event: BusEvent) -> bool
    ensures { result ≡ has_ca_and_im event }
{
    let (master, _) = event.signals();
    master.ca && master.im
}

/// Whether an owner supplies the words, or takes the word, in place of memory.
fn serves_owner(event: BusEvent) -> bool
    ensures { result ≡ is_served_by_owner event }
{
    event.reads() || event.writes_plain_word()
}

/// Whether a board that does not own the line gives up its copy at this event.
fn gives_up(kind: Kind, event: BusEvent) -> bool
    ensures { result ≡ gives_up_to kind event }
{
    match kind {
        Kind::Exclusive => event.writes_plain_word() || event.fills_row(),
        Kind::Invalidate | Kind::Update | Kind::Through | Kind::ThroughBroadcast | Kind::Uncached =>
            event.writes_plain_word(),
    }
}

fn owner_next(state: State, event: BusEvent) -> State
    ensures { result ≡ next_of_owner state event }
{
    if takes_ownership(event) {
        State::S
    } else if keeps_copy(event) {
        State::O
    } else {
        state
    }
}

fn sharer_next(kind: Kind, state: State, event: BusEvent) -> State
    ensures { result ≡ next_of_sharer kind state event }
{
    if gives_up(kind, event) {
        State::I
    } else if keeps_copy(event) {
        State::S
    } else {
        state
    }
}

/// The state that a holder goes to.
fn next_state(kind: Kind, state: State, event: BusEvent) -> State
    ensures { result ≡ next_of_holder kind state event }
{
    if takes_ownership(event) && !event.broadcasts() {
        State::I
    } else if state.owns() {
        owner_next(state, event)
    } else {
        sharer_next(kind, state, event)
    }
}

/// The answer of a holder that goes from this state to the next one.
fn answer_to(state: State, next: State, event: BusEvent) -> SnoopAction
    ensures { result ≡ answers_to state next event }
{
    SnoopAction {
        result: next,
        response: Response {
            ch: keeps_copy(event) && next.holds(),
            di: state.owns() && serves_owner(event),
            sl: event.broadcasts() && next.holds(),
        },
    }
}

/// Whether a board can be asked for an answer: it holds a copy, and the event comes to its state.
pub(crate) fn is_asked(state: State, event: BusEvent) -> bool
    ensures { result ≡ is_asked_of state event }
{
    state.holds() && comes(state, event)
}

fn answer_by_rule(kind: Kind, state: State, event: BusEvent) -> Option<SnoopAction>
    ensures { result ≡ rule_answer kind state event }
{
    if has_state(kind, state) && is_asked(state, event) {
        Some(answer_to(state, next_state(kind, state, event), event))
    } else {
        None
    }
}

/// How a board of this protocol answers, where it can be asked.
#[tactic(auto, using(crate::proofs::RuleLaws::rule_answers))]
pub(crate) fn answer(kind: Kind, state: State, event: BusEvent) -> Option<SnoopAction>
    ensures { option_to_list result ≡ answers_of (protocol_table kind) state event }
{
    answer_by_rule(kind, state, event)
}
