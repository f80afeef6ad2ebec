//! Laws of merged logs. Each function does nothing: its contract is the law.

ghost use Rattle.pg_span_run.specs.LogLaws.{ReadLogsAreLogs, MergedLogsKeepPrograms};
ghost use Rattle.pg_span_run.specs.LogLaws.{SpansAreAsStamped};

/// What bytes are read as keeps true what a log keeps true.
pub fn read_logs_are_logs()
    ensures { ReadLogsAreLogs }
{}

/// In the record of merged logs the events of a processor are those of its log, in its order.
pub fn merged_logs_keep_programs()
    ensures { MergedLogsKeepPrograms }
{}

/// An event comes before another one by its span exactly where its end stamp lies below the begin
/// stamp of the other.
pub fn spans_are_as_stamped()
    ensures { SpansAreAsStamped }
{}
