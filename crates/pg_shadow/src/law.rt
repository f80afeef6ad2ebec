//! Laws of what is kept. Each function does nothing: its contract is the law.

ghost use Rattle.pg_shadow.specs.Laws.{EntriesMayBeKept};

/// The tables and pages that entries refer to, as they are classified, are as `keep_table` and
/// `keep_leaf` want them, where MAXPHYADDR is a record's.
pub fn entries_may_be_kept()
    ensures { EntriesMayBeKept }
{}
