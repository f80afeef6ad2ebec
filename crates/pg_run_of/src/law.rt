ghost use Rattle.pg_run_of.specs.Law.{AcceptedEventsRun, AcceptedRecordsRun, AnsweredReadHasNoRun};
ghost use Rattle.pg_run_of.specs.Converse.{RunsAreAccepted, RunsAreRecords};

use pg_machine::some_record_has_no_run;

/// Well-formed events of which each is witnessed are those of a run.
pub fn accepted_events_run()
    ensures { AcceptedEventsRun }
{}

/// An accepted record is the record of a run.
pub fn accepted_records_run()
    ensures { AcceptedRecordsRun }
{}

/// The events of a run are well formed and witnessed, by moments of their own.
pub fn runs_are_accepted()
    ensures { RunsAreAccepted }
{}

/// The events of a run, whose fields fit theirs, are those of an accepted record, but for the
/// moments.
pub fn runs_are_records()
    ensures { RunsAreRecords }
{}

/// Not every record has a run: one that begins with a read that is answered has none.
pub fn answered_read_has_no_run()
    ensures { AnsweredReadHasNoRun }
{
    some_record_has_no_run();
}
