ghost use Rattle.pg_machine.specs.NoRun.{SomeRecordHasNoRun};
ghost use Rattle.pg_machine.specs.FewerRules.{RunsUnderFewerRules};

/// Not every record is one of a run. A lone read that got an answer is none: memory is 0 until it
/// is written, so that no translation can be cached before the read.
pub fn some_record_has_no_run()
    ensures { SomeRecordHasNoRun }
{}

/// Whatever the machine may do whose processors are held to some rules, the machine may do that
/// holds them to fewer.
pub fn runs_under_fewer_rules()
    ensures { RunsUnderFewerRules }
{}
