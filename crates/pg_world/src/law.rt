//! Laws of recordings. Each function does nothing: its contract is the law.

ghost use Rattle.pg_world.specs.Laws.{SegmentsBeginTheEvents, FinishedSegmentsAreTheEvents};
ghost use Rattle.pg_world.specs.Laws.{TablesHaveAddresses, AnAssistIsEnough};

/// The first segments, one after another, are the first events.
pub fn segments_begin_the_events()
    ensures { SegmentsBeginTheEvents }
{}

/// The sealed segments of a finished record, one after another, are its events.
pub fn finished_segments_are_the_events()
    ensures { FinishedSegmentsAreTheEvents }
{}

/// What an entry or CR3 refers to is the address of a table: a walk that goes by what it read is
/// not refused for its table.
pub fn tables_have_addresses()
    ensures { TablesHaveAddresses }
{}

/// One assist is enough: the same read after it is no assist again, but gives the entry with its
/// flags set.
pub fn an_assist_is_enough()
    ensures { AnAssistIsEnough }
{}
