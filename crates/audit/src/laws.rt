//! What the finding of an audit means, in the words of coherence.

ghost use Rattle.audit.specs.Laws.{SoundnessIsTold, FindingsAreFirst};

/// Where nothing is found, each reply is the latest word, and after each event every line is
/// coherent.
pub fn nothing_found_is_sound()
    ensures { SoundnessIsTold }
{}

/// The event that is found does harm, and none before it does.
pub fn findings_are_first()
    ensures { FindingsAreFirst }
{}
