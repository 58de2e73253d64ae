//! Commands over files and an output of which one call fails: each call in turn, until the command
//! makes no such call.

use crate::commands::{file, words};
use crate::machines::writer_and_reader_text;
use fb_cli::plain;
use fb_edge::{MemShelf, MemSink};
use std::alloc::Global;
use std::test::Fail;

/// The run in which board 1 writes a word and board 2 then reads it.
const TRACE: &str = "raise 1\n\
    grant 1 to 1 lines 10 rounds 0\n\
    connect 1 rfo line 1 to M answers none\n\
    data 1 rfo line 1 from memory into none states 1=M done write 5 7\n\
    raise 2\n\
    grant 2 to 2 lines 9 rounds 0\n\
    connect 2 urd line 1 to I answers 1=M+DI\n\
    data 2 urd line 1 from 1 into none states 2=I 1=M done read 5 = 7\n\
    end\n";

/// What the boards were told, and what is kept in the end.
const ENDING: &str = "answer 2 1 5 7\nmemory 0 0 0 0 0\nmemory 1 0 100 0 0\ncopy 1 1 M 0 7 0 0\n";

/// How many bytes the output takes in a call.
const MOST: usize = 7;

/// A command makes fewer calls than this.
const MANY: u64 = 1000;

/// The setup F, the schedule S and the trace T.
fn files(alloc: Global) -> Result<Vec<(String, Vec<u8>)>, Fail> {
    let setup = writer_and_reader_text(alloc)?;
    let mut files = Vec::new(alloc);
    files.push(file(alloc, "F", setup.as_str())?)?;
    files.push(file(alloc, "S", "1 1 1 1 2 2 2 2\n")?)?;
    files.push(file(alloc, "T", TRACE)?)?;
    Ok(files)
}

/// The number of one call.
fn only(alloc: Global, call: u64) -> Result<Vec<u64>, Fail> {
    Ok(Vec::from_array(alloc, [call])?)
}

/// What a command prints, and its status, where this call of the files fails.
fn read_fails(alloc: Global, command: &str, call: u64) -> Result<(Vec<u8>, u8), Fail> {
    let mut shelf = MemShelf::new(files(alloc)?, only(alloc, call)?);
    let mut sink = MemSink::new(alloc, 2000, MOST, Vec::new(alloc))?;
    let status = plain(alloc, &words(alloc, command)?, &mut shelf, &mut sink);
    Ok((sink.taken().to_vec(alloc)?, status))
}

/// What a command prints, and its status, where this call of the output fails.
fn write_fails(alloc: Global, command: &str, call: u64) -> Result<(Vec<u8>, u8), Fail> {
    let mut shelf = MemShelf::new(files(alloc)?, Vec::new(alloc));
    let mut sink = MemSink::new(alloc, 2000, MOST, only(alloc, call)?)?;
    let status = plain(alloc, &words(alloc, command)?, &mut shelf, &mut sink);
    Ok((sink.taken().to_vec(alloc)?, status))
}

// The setup is read before the trace. Each of them is started, read, and read again to its end.
#[test]
fn each_read_of_a_replay_fails_in_turn(rt: HostRuntime) -> Result<(), Fail> {
    let mut last_of_setup = 0u64;
    for call in 1..MANY {
        let (printed, status) = read_fails(rt.alloc(), "replay F T", call)?;
        if status == 0 {
            assert_eq!(rt; printed.as_slice(), ENDING.as_bytes());
            assert!(rt; 3 <= last_of_setup && last_of_setup.saturating_add(3) < call);
            return Ok(());
        }
        assert_eq!(rt; status, 4, "call {call}");
        if printed.as_slice() == b"fault read setup\n".as_slice() {
            assert_eq!(rt; last_of_setup.saturating_add(1), call);
            last_of_setup = call;
        } else {
            assert_eq!(rt;
                printed.as_slice(),
                b"fault read trace\n".as_slice(),
                "call {call}"
            );
        }
    }
    Err(Fail::from("calls without end"))
}

#[test]
fn each_write_of_a_run_fails_in_turn(rt: HostRuntime) -> Result<(), Fail> {
    let alloc = rt.alloc();
    let whole = format!(in alloc; "{TRACE}{ENDING}")?;
    let mut taken = 0usize;
    for call in 1..MANY {
        let (printed, status) = write_fails(alloc, "run F S", call)?;
        assert!(rt;
            whole.as_bytes().starts_with(printed.as_slice()),
            "call {call}"
        );
        if status == 0 {
            assert_eq!(rt; printed.len(), whole.len());
            assert!(rt; whole.len() <= taken);
            return Ok(());
        }
        assert_eq!(rt; status, 5, "call {call}");
        assert!(rt; printed.len() < whole.len(), "call {call}");
        assert_eq!(rt; printed.len(), taken, "call {call}");
        taken = printed.len() + MOST;
    }
    Err(Fail::from("calls without end"))
}
