//! Laws of explanations. Each function does nothing: its contract is the law.

ghost use Rattle.pg_explain.specs.Laws.{OthersLeaveTheWord, UnwrittenWordsStay};
ghost use Rattle.pg_explain.specs.Laws.{WritersLeaveTheWord, FindingsStandBehindReasons};

/// An event that does not write a word leaves it as it is.
pub fn others_leave_the_word()
    ensures { OthersLeaveTheWord }
{}

/// A word that no event below a moment wrote is what it was at the start.
pub fn unwritten_words_stay()
    ensures { UnwrittenWordsStay }
{}

/// A word is what the last event that wrote it left.
pub fn writers_leave_the_word()
    ensures { WritersLeaveTheWord }
{}

/// Where a reason fails there is a finding, and it is of the least that does; where none
/// fails there is none. It is so whatever the events are.
pub fn findings_stand_behind_reasons()
    ensures { FindingsStandBehindReasons }
{}
