//! The rows of `check`, and files that are not read.

use crate::plain;
use crate::tests::{failing, files, said, words};
use fb_edge::{MemShelf, MemSink, SureShelf, SureSink};
use std::alloc::{AllocError, Global};
use std::test::Fail;

const UNCACHED: &str = "table un\nI read = I urd\nI write = I uwr\nI pass = I\nI flush = I\nend\n";

const WRITE_THROUGH: &str =
    "table wt\nS read = S\nS write = S uwr\nS pass = S\nS flush = I\nS rd = S CH\n\
    S rfo = I\nS inv = I\nS urd = S\nS bwr = S CH SL\nS uwr = I\nS ubw = S SL\nS pas = S CH\nS flu = S\n\
    I read = S rd\nI write = I uwr\nI pass = I\nI flush = I\nend\n";

const FORBIDDEN: &str = "table un\nI read = E rd\nI write = I uwr\nI pass = I\nI flush = I\nend\n";

const COPY_BACK: &str =
    "table cb\nM read = M\nM write = M\nM pass = E pas\nM flush = I flu\nM rd = O CH DI\n\
    M rfo = I DI\nM urd = M DI\nM uwr = M DI\nM ubw = M SL\nO read = O\nO write = M inv\n\
    O pass = CH:S/E pas\nO flush = I flu\nO rd = O CH DI\nO rfo = I DI\nO inv = I\nO urd = O DI\n\
    O bwr = S CH SL\nO uwr = O DI\nO ubw = O SL\nE read = E\nE write = M\nE pass = E\nE flush = I\n\
    E rd = S CH\nE rfo = I\nE urd = E\nE uwr = I\nE ubw = E SL\nS read = S\nS write = M inv\n\
    S pass = S\nS flush = I\nS rd = S CH\nS rfo = I\nS inv = I\nS urd = S\nS bwr = S CH SL\n\
    S uwr = I\nS ubw = S SL\nS pas = S CH\nS flu = S\nI read = CH:S/E rd\nI write = M rfo\n\
    I pass = I\nI flush = I\nend\n";

#[test]
fn checks_tables(rt: HostRuntime) -> Result<(), Fail> {
    let rows = [
        (UNCACHED, "table un: accepted\n", 0),
        (WRITE_THROUGH, "table wt: accepted\n", 0),
        (COPY_BACK, "table cb: accepted\n", 0),
        (
            FORBIDDEN,
            "table un: refused 10\nnot-permitted I read 1 E rd\nmissing E read\nmissing E write\n\
            missing E pass\nmissing E flush\nmissing E rd\nmissing E rfo\nmissing E urd\nmissing E uwr\n\
            missing E ubw\n",
            1,
        ),
        ("", "fault setup line 1 no-end\n", 3),
        ("# no words\n\n", "fault setup line 3 no-end\n", 3),
        ("table un\nend\nend\n", "fault setup line 3 word\n", 3),
        ("table Un\nend\n", "fault setup line 1 word\n", 3),
        (
            "table un\nI read = I urd\nI read = I urd\n",
            "fault setup line 3 twice-cell\n",
            3,
        ),
        ("table un\nI read =\n", "fault setup line 2 no-cell\n", 3),
        (
            "table un\nI read = I urd\n",
            "fault setup line 3 no-end\n",
            3,
        ),
    ];
    for (text, want, status) in rows {
        let (printed, ended) = said(&rt, rt.alloc(), "check F", &[("F", text)])?;
        assert_eq!(rt; printed.as_slice(), want.as_bytes(), "{text}");
        assert_eq!(rt; ended, status, "{text}");
    }
    Ok(())
}

/// The table without the lines that begin with this.
fn without(alloc: Global, text: &str, begin: &str) -> Result<String, AllocError> {
    let mut kept = String::new(alloc);
    for line in text.lines() {
        if !line.starts_with(begin) {
            kept.push_str(line)?;
            kept.push('\n')?;
        }
    }
    Ok(kept)
}

#[test]
fn reports_faults_of_copy_back(rt: HostRuntime) -> Result<(), Fail> {
    let alloc = rt.alloc();
    let unowned = without(alloc, COPY_BACK, "O")?;
    let unshared = COPY_BACK.replace(alloc, "S rd = S CH", "S rd = S")?;
    let answered = COPY_BACK.replace(alloc, "end\n", "M bwr = I\nend\n")?;
    let rows = [
        (
            unowned.as_str(),
            "table cb: refused 11\nmissing O read\nmissing O write\nmissing O pass\n\
            missing O flush\nmissing O rd\nmissing O rfo\nmissing O inv\nmissing O urd\nmissing O bwr\n\
            missing O uwr\nmissing O ubw\n",
        ),
        (
            unshared.as_str(),
            "table cb: refused 1\nnot-permitted S rd 1 S\n",
        ),
        (
            answered.as_str(),
            "table cb: refused 1\nnot-permitted M bwr 1 I\n",
        ),
    ];
    for (text, want) in rows {
        let (printed, ended) = said(&rt, rt.alloc(), "check F", &[("F", text)])?;
        assert_eq!(rt; printed.as_slice(), want.as_bytes());
        assert_eq!(rt; ended, 1);
    }
    Ok(())
}

#[test]
fn tells_faults(rt: HostRuntime) -> Result<(), Fail> {
    let alloc = rt.alloc();
    let check = words(alloc, "check F")?;
    // the start fails, a read fails, the file is missing
    for (call, name) in [(1, "F"), (2, "F"), (9, "G")] {
        let mut shelf = MemShelf::new(files(alloc, &[(name, UNCACHED)])?, failing(alloc, &[call])?);
        let mut sink = MemSink::new(alloc, 100, 100, Vec::new(alloc))?;
        assert_eq!(rt;
            plain(alloc, &check, &mut shelf, &mut sink),
            4,
            "call {call}"
        );
        assert_eq!(rt;
            sink.taken(),
            b"fault read setup\n".as_slice(),
            "call {call}"
        );
    }
    let mut shelf = SureShelf::new(files(alloc, &[("F", UNCACHED)])?);
    let mut sink = MemSink::new(alloc, 100, 3, failing(alloc, &[2])?)?;
    assert_eq!(rt; plain(alloc, &check, &mut shelf, &mut sink), 5);
    assert_eq!(rt; sink.taken(), b"tab".as_slice());
    Ok(())
}

#[test]
fn refuses_long_files(rt: HostRuntime) -> Result<(), Fail> {
    let alloc = rt.alloc();
    let check = words(alloc, "check F")?;
    for (count, status) in [(8_388_608, 3), (8_388_609, 7)] {
        let mut one = Vec::new(alloc);
        one.push((String::from_str(alloc, "F")?, vec![in alloc; b'#'; count]?))?;
        let mut shelf = SureShelf::new(one);
        assert_eq!(rt;
            plain(alloc, &check, &mut shelf, &mut SureSink::new()),
            status,
            "{count} bytes"
        );
    }
    Ok(())
}
