//! The machines of the runs. Each setup has the same four tables.

ghost use Rattle.std.specs.Prelude.{◌≡◌, [], IfOk, IsTrue};
ghost use Rattle.backplane.specs.Machine.{IsBoard};

use backplane::{AssembleFault, Machine, assemble};
use setup_text::{Setup, read_setup};
use std::alloc::Global;
use std::test::Fail;

/// Tables for a cached board that invalidates other copies before it writes, one that broadcasts
/// what it writes, one that writes through, and one without a cache.
const TABLES: &str =
    "table cb\nM read = M\nM write = M\nM pass = E pas\nM flush = I flu\nM rd = O CH DI\n\
     M rfo = I DI\nM urd = M DI\nM uwr = M DI\nM ubw = M SL\nO read = O\nO write = M inv\n\
     O pass = CH:S/E pas\nO flush = I flu\nO rd = O CH DI\nO rfo = I DI\nO inv = I\nO urd = O DI\n\
     O bwr = S CH SL\nO uwr = O DI\nO ubw = O SL\nE read = E\nE write = M\nE pass = E\n\
     E flush = I\nE rd = S CH\nE rfo = I\nE urd = E\nE uwr = I\nE ubw = E SL\nS read = S\n\
     S write = M inv\nS pass = S\nS flush = I\nS rd = S CH\nS rfo = I\nS inv = I\nS urd = S\n\
     S bwr = S CH SL\nS uwr = I\nS ubw = S SL\nS pas = S CH\nS flu = S\nI read = CH:S/E rd\n\
     I write = M rfo\nI pass = I\nI flush = I\nend\n\
     table up\nM read = M\nM write = M\nM pass = E pas\nM flush = I flu\nM rd = O CH DI\n\
     M rfo = I DI\nM urd = M DI\nM uwr = M DI\nM ubw = M SL\nO read = O\nO write = CH:O/M bwr\n\
     O pass = CH:S/E pas\nO flush = I flu\nO rd = O CH DI\nO rfo = I DI\nO inv = I\nO urd = O DI\n\
     O bwr = S CH SL\nO uwr = O DI\nO ubw = O SL\nE read = E\nE write = M\nE pass = E\n\
     E flush = I\nE rd = S CH\nE rfo = I\nE urd = E\nE uwr = I\nE ubw = E SL\nS read = S\n\
     S write = CH:O/M bwr\nS pass = S\nS flush = I\nS rd = S CH\nS rfo = I\nS inv = I\nS urd = S\n\
     S bwr = S CH SL\nS uwr = I\nS ubw = S SL\nS pas = S CH\nS flu = S\nI read = CH:S/E rd\n\
     I write = M rfo\nI pass = I\nI flush = I\nend\n\
     table wt\nS read = S\nS write = S uwr\nS pass = S\nS flush = I\nS rd = S CH\nS rfo = I\n\
     S inv = I\nS urd = S\nS bwr = S CH SL\nS uwr = I\nS ubw = S SL\nS pas = S CH\nS flu = S\n\
     I read = S rd\nI write = I uwr\nI pass = I\nI flush = I\nend\n\
     table un\nI read = I urd\nI write = I uwr\nI pass = I\nI flush = I\nend\n";

/// The text of the setup with these lines before and after its tables.
fn text(alloc: Global, memory: &str, boards: &str) -> Result<String, Fail> {
    Ok(format!(in alloc; "{memory}{TABLES}{boards}")?)
}

/// The setup with these lines before and after its tables.
pub fn setup(alloc: Global, memory: &str, boards: &str) -> Result<Setup, Fail> {
    let text = text(alloc, memory, boards)?;
    if text.len() > 10_000 {
        return Err(Fail::from("a long setup"));
    }
    match read_setup(alloc, text.as_bytes()) {
        Ok(setup) => Ok(setup),
        Err(_) => Err(Fail::from("no setup")),
    }
}

/// The machine of that setup, or why there is none.
pub fn assembled(
    alloc: Global,
    memory: &str,
    boards: &str,
) -> Result<Result<Machine, AssembleFault>, Fail>
    ensures { IfOk result (λ answer. IfOk answer (λ machine. machine.journal ≡ [])) }
{
    let setup = setup(alloc, memory, boards)?;
    Ok(assemble(alloc, setup))
}

/// The machine of that setup, at its opening.
pub fn machine(alloc: Global, memory: &str, boards: &str) -> Result<Machine, Fail>
    ensures { IfOk result (λ machine. machine.journal ≡ []) }
{
    match assembled(alloc, memory, boards)? {
        Ok(machine) => Ok(machine),
        Err(_) => Err(Fail::from("no machine")),
    }
}

/// The memory of a board that writes a word and one that reads it.
const WORD_5: &str = "memory 2\nword 5 100\n";

/// Board 1 writes a word that board 2 reads.
const WRITER_AND_READER: &str = "board 1 number 10 table cb cached 1 1 choose first\nwrite 5 7\n\
    board 2 number 9 table un plain choose first\nread 5\nend\n";

/// A machine on which board 1 writes a word that board 2 reads.
pub fn writer_and_reader(alloc: Global) -> Result<Machine, Fail>
    ensures { IfOk result (λ machine. machine.journal ≡ []) }
{
    machine(alloc, WORD_5, WRITER_AND_READER)
}

/// The text of the setup in which board 1 writes a word that board 2 reads.
pub fn writer_and_reader_text(alloc: Global) -> Result<String, Fail> {
    text(alloc, WORD_5, WRITER_AND_READER)
}

/// An uncached board, one that writes through and two that copy back, on one line. Each writes a
/// counter of its own twice, and reads all four.
const COUNTERS: &str = "board 1 number 5 table un plain choose first\n\
    read 0\nwrite 0 1\nread 1\nread 2\nread 3\nwrite 0 2\nread 0\n\
    board 2 number 9 table wt cached 1 1 choose first\n\
    write 1 1\nread 0\nread 2\nread 3\nwrite 1 2\nread 1\n\
    board 3 number 12 table cb cached 1 1 choose first\n\
    write 2 1\nread 0\nread 1\nread 3\nwrite 2 2\nread 2\n\
    board 4 number 7 table cb cached 1 1 choose first\n\
    write 3 1\nread 0\nread 1\nread 2\nwrite 3 2\nread 3\nend\n";

/// The machine of four boards that count.
pub fn counters(alloc: Global) -> Result<Machine, Fail>
    ensures { IfOk result (λ machine. machine.journal ≡ []) }
{
    machine(alloc, "memory 1\n", COUNTERS)
}

/// The text of the setup of four boards that count.
pub fn counters_text(alloc: Global) -> Result<String, Fail> {
    text(alloc, "memory 1\n", COUNTERS)
}

/// Whether the machine has a board of this place.
pub fn has_board(machine: &Machine, place: u8) -> bool
    ensures { IsTrue result → IsBoard machine.now place }
{
    1 <= place && place <= machine.boards()
}
