//! What is a history of one memory, and what is not.

ghost use Rattle.flat_memory.specs.History.{Legal};
ghost use Rattle.flat_memory.specs.WorkedHistories.{first_words, read_alone, write_and_read, two_writes_and_read};

/// A read gives the word that was last written, or else the one with which memory began. It does
/// not give a word that was overwritten or that nobody wrote.
pub fn small_histories_are_judged()
    ensures first_word { Legal first_words (read_alone 100) }
    ensures no_unwritten_word { ¬ (Legal first_words (read_alone 7)) }
    ensures written_word { Legal first_words (write_and_read 7 7) }
    ensures no_stale_word { ¬ (Legal first_words (write_and_read 7 100)) }
    ensures last_word { Legal first_words (two_writes_and_read 8) }
    ensures no_overwritten_word { ¬ (Legal first_words (two_writes_and_read 7)) }
{}
