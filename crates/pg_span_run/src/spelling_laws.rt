//! Laws of runs with spans and their spellings. Each function does nothing: its contract is the
//! law.

ghost use Rattle.pg_span_run.specs.SpellingLaws.{NoBytesSpellTwoRuns, ReadingOfSpannedSpelling};
ghost use Rattle.pg_span_run.specs.SpellingLaws.{SpelledWhereRead};

/// Bytes spell one run at most.
pub fn no_bytes_spell_two_runs()
    ensures { NoBytesSpellTwoRuns }
{}

/// Reading a spelling gives its run.
pub fn reading_of_spanned_spelling()
    ensures { ReadingOfSpannedSpelling }
{}

/// Bytes spell a run exactly where they are read as that run.
pub fn spelled_where_read()
    ensures { SpelledWhereRead }
{}
