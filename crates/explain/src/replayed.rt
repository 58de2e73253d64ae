//! How far a trace is that of a run.

use backplane::Machine;
use trace_text::{Event, read_event};

/// Why a trace was followed no further.
#[derive(Drop)]
pub enum Stopped<'a> {
    /// Each line was a step, to the end of the trace.
    AtEnd,
    /// The line spells no event.
    Misspelled {
        number: u64,
        line: &'a [u8],
    },
    /// The event of the line may not happen.
    Refused {
        number: u64,
        line: &'a [u8],
        event: Event,
    },
}

/// The first line, where it has a line feed, and what stands after it.
fn cut(text: &[u8]) -> Option<(&[u8], &[u8])> {
    match text.iter().position(|byte| *byte == b'\n') {
        Some(end) => match text.split_at(end) {
            (line, [_, rest @ ..]) => Some((line, rest)),
            (_, []) => None,
        },
        None => None,
    }
}

/// Plays a trace to its end, or to its first line that is no step.
pub fn follow<'a>(machine: &mut Machine, trace: &'a [u8]) -> Stopped<'a> {
    let mut rest = trace;
    let mut number = 1u64;
    for _ in 0..trace.len() {
        let Some((line, after)) = cut(rest) else {
            break;
        };
        if line == b"end".as_slice() {
            return Stopped::AtEnd;
        }
        let Some(event) = read_event(line) else {
            return Stopped::Misspelled { number, line };
        };
        if machine.apply(&event).is_err() {
            return Stopped::Refused {
                number,
                line,
                event,
            };
        }
        number = number.saturating_add(1);
        rest = after;
    }
    if rest.is_empty() {
        Stopped::AtEnd
    } else {
        Stopped::Misspelled { number, line: rest }
    }
}
