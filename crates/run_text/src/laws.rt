//! How long the text of a run can be.

ghost use Rattle.run_text.specs.Lengths.{RunTextsFit};

use coherence::journals_are_bounded;

/// The text of every run of a setup within its limits is short enough for a trace.
pub fn run_texts_fit()
    ensures { RunTextsFit }
{
    journals_are_bounded();
}
