//! A trace that is given as a whole.

ghost use Rattle.std.specs.Prelude.{◌≡◌, []};
ghost use Rattle.replayer.specs.Lines.{trace_of};
ghost use Rattle.replayer.specs.Replaying.{replayed};
ghost use Rattle.replayer.specs.Runs.{Says, Accepts, IsOnlyAnswer};

use crate::fault::ReplayFault;
use crate::pieces::Replay;
use backplane::Machine;

/// Replays a trace on a machine at its opening. It gives the machine after the events of the trace
/// exactly where they are a complete run of its setup.
pub fn replay(machine: Machine, trace: &[u8]) -> Result<Machine, ReplayFault>
    requires { machine.journal ≡ [] }
    ensures replayed { result ≡ replayed machine trace.now }
    ensures says { Says machine.setup (trace_of trace.now) result }
    ensures accepts { Accepts machine.setup (trace_of trace.now) result }
    ensures only { IsOnlyAnswer machine.setup (trace_of trace.now) result }
{
    let mut replay = Replay::start(machine);
    replay.feed(trace);
    replay.finish()
}
