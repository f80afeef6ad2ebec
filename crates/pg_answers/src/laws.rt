//! Laws of answers.

ghost use Rattle.pg_answers.specs.Audited.{ChecksAreAudits};

/// What `check` answers and writes is what an audit of the same bytes promises. The function does
/// nothing: its contract is the law.
pub fn checks_are_audits()
    ensures { ChecksAreAudits }
{}
