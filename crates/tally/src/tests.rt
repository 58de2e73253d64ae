//! The tally of a small journal.

use super::*;
use bus_signals::{Access, Addr, BoardNo, BusEvent, LineNo};
use fb_text::Text;
use journal::{Answers, Carried, Connected, Done, Event, Places, Source, States, Takers};
use moesi_state::{Outcome, State};
use std::test::Fail;

fn connect(event: BusEvent) -> Event {
    Event::Connect(Connected {
        master: BoardNo(1),
        event,
        line: LineNo(0),
        outcome: Outcome::Fixed(State::S),
        answers: Answers::new(),
    })
}

fn read_by_bus(reply: u32) -> Event {
    Event::DataPhase(Carried {
        master: BoardNo(1),
        event: BusEvent::Rd,
        line: LineNo(0),
        source: Source::Memory,
        takers: Takers {
            memory: false,
            boards: Places::new(),
        },
        states: States::new(),
        done: Some(read(reply)),
    })
}

fn read(reply: u32) -> Done {
    Done {
        access: Access::Read(Addr(0)),
        reply: Some(reply),
    }
}

#[test]
fn a_small_journal(rt: HostRuntime) -> Result<(), Fail> {
    let journal = [
        Event::Raise { board: BoardNo(1) },
        connect(BusEvent::Rd),
        read_by_bus(4_294_967_295),
        Event::Local {
            board: BoardNo(1),
            before: State::S,
            after: State::S,
            done: read(7),
        },
        connect(BusEvent::Flu),
        connect(BusEvent::Rd),
        Event::Local {
            board: BoardNo(1),
            before: State::M,
            after: State::M,
            done: Done {
                access: Access::Write(Addr(0), 5),
                reply: None,
            },
        },
    ];
    let mut text = Text::new(rt.alloc());
    if text.reserve(512).is_err() {
        return Err("memory".into());
    }
    write_tally(3, &journal, &mut text);
    let wanted =
        "seed 3\naccesses 100000\nevents 7\nrd 2\nrfo 0\ninv 0\nurd 0\nbwr 0\nuwr 0\nubw 0\n\
         pas 0\nflu 1\nsum 4294967302\n";
    assert_eq!(rt; text.bytes(), wanted.as_bytes());
    Ok(())
}
