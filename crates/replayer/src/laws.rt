//! What is printed is read again.

ghost use Rattle.replayer.specs.Printed.{PrintedEventsAreTraces};

/// The trace of the lines of events, the line `end` and anything after it is these lines.
pub fn printed_events_are_traces()
    ensures { PrintedEventsAreTraces }
{}
