//! Each call once, on a small setup, and buffers that are too short.

use crate::{
    FbAnswer, fb_check, fb_make, fb_narrow, fb_replay, fb_run, fb_run_seeded, fb_show, fb_traffic,
    fb_traffic_seeded,
};
use std::test::Fail;

const TABLE: &[u8] = b"table un\nI read = I urd\nI write = I uwr\nI pass = I\nI flush = I\nend\n";

const SETUP: &[u8] =
    b"memory 1\ntable un\nI read = I urd\nI write = I uwr\nI pass = I\nI flush = I\nend\n\
    board 1 number 5 table un plain choose first\nwrite 2 7\nread 2\nend\n";

const RUN: &[u8] =
    b"raise 1\ngrant 1 to 1 lines 5 rounds 0\nconnect 1 uwr line 0 to I answers none\n\
    data 1 uwr line 0 from none into memory states 1=I done write 2 7\n\
    raise 1\ngrant 1 to 1 lines 5 rounds 0\nconnect 1 urd line 0 to I answers none\n\
    data 1 urd line 0 from memory into none states 1=I done read 2 = 7\nend\n\
    answer 1 2 2 7\nmemory 0 0 0 7 0\n";

const ENDING: &[u8] = b"answer 1 2 2 7\nmemory 0 0 0 7 0\n";

const TRAFFIC: &[u8] =
    b"traffic 1 connects 2 words 2 local 0 served 0 took 0\ntraffic memory served 1 took 1\n";

/// An answer before a call.
fn none() -> FbAnswer {
    FbAnswer {
        status: 99,
        count: 0,
    }
}

/// A call ended with this status and gave this text.
fn gave(answer: &FbAnswer, buffer: &[u8], status: u64, text: &[u8]) -> bool {
    answer.status == status && answer.count == text.len() as u64 && buffer.starts_with(text)
}

#[test]
fn gives_what_the_program_prints(rt: HostRuntime) -> Result<(), Fail> {
    let alloc = rt.alloc();
    let mut buffer = [0u8; 1000];
    let mut answer = none();
    fb_check(alloc, TABLE, &mut buffer, &mut answer);
    assert!(rt; gave(&answer, &buffer, 0, b"table un: accepted\n"), "check");
    fb_show(alloc, SETUP, &mut buffer, &mut answer);
    assert!(rt; gave(&answer, &buffer, 0, SETUP), "show");
    fb_narrow(alloc, TABLE, &mut buffer, &mut answer);
    assert!(rt; gave(&answer, &buffer, 0, TABLE), "narrow");
    fb_run(alloc, SETUP, b"1\n", &mut buffer, &mut answer);
    assert!(rt; gave(&answer, &buffer, 0, RUN), "run");
    fb_run_seeded(alloc, SETUP, 18446744073709551615, &mut buffer, &mut answer);
    assert!(rt; gave(&answer, &buffer, 0, RUN), "run by a seed");
    fb_replay(alloc, SETUP, RUN, &mut buffer, &mut answer);
    assert!(rt; gave(&answer, &buffer, 0, ENDING), "replay");
    fb_traffic(alloc, SETUP, b"", &mut buffer, &mut answer);
    assert!(rt; gave(&answer, &buffer, 0, TRAFFIC), "traffic");
    fb_traffic_seeded(alloc, SETUP, 0, &mut buffer, &mut answer);
    assert!(rt; gave(&answer, &buffer, 0, TRAFFIC), "traffic by a seed");
    Ok(())
}

#[test]
fn tells_of_faults(rt: HostRuntime) -> Result<(), Fail> {
    let alloc = rt.alloc();
    let mut answer = none();
    let mut buffer = [0u8; 30];
    fb_replay(alloc, SETUP, b"raise 2\n", &mut buffer, &mut answer);
    assert!(rt;
        gave(&answer, &buffer, 1, b"fault trace line 1 not-a-run\n"),
        "replay"
    );
    fb_run(alloc, b"memory\n", b"", &mut buffer, &mut answer);
    assert!(rt;
        gave(&answer, &buffer, 3, b"fault setup line 1 number\n"),
        "run"
    );
    Ok(())
}

#[test]
fn tells_of_short_buffers(rt: HostRuntime) -> Result<(), Fail> {
    let alloc = rt.alloc();
    let mut answer = none();
    let mut full = [0u8; 19];
    fb_check(alloc, TABLE, &mut full, &mut answer);
    assert!(rt;
        gave(&answer, &full, 0, b"table un: accepted\n"),
        "a buffer that is full"
    );
    let mut short = [0u8; 5];
    fb_check(alloc, TABLE, &mut short, &mut answer);
    assert!(rt; answer.status == 5 && answer.count == 19, "a short buffer");
    assert!(rt; short.starts_with(b"table"), "the front of a text");
    fb_make(alloc, 1, &mut short, &mut answer);
    assert!(rt; answer.status == 5 && answer.count > 1000000, "make");
    Ok(())
}
