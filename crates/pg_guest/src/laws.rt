//! Laws of the turns of processors. Each function does nothing: its contract is the law.

ghost use Rattle.pg_guest.specs.Assists.{AssistsAreFew, EventsAreFew};
ghost use Rattle.pg_guest.specs.Laws.{FreshAreAtHome, TurnsKeepHome, OthersStayAtHome};
ghost use Rattle.pg_guest.specs.Laws.{TurnsKeepQuiet, CoreRunsKeepQuiet, CoreRunsAreAccepted};
ghost use Rattle.pg_guest.specs.Laws.{CoreRunsGoOn};
ghost use Rattle.pg_guest.specs.Leaves.{TurnsLeave, CoreRunsLeave};
ghost use Rattle.pg_guest.specs.Progress.{EntriesArePresent, ReadsGoFurther, FiveTurnsCarryOut};
ghost use Rattle.pg_guest.specs.Progress.{NineTurnsCarryOut, TurnsComeNearer};
ghost use Rattle.pg_guest.specs.Progress.{NoneAssistInVersionOne};
ghost use Rattle.pg_guest.specs.Transcripts.{FreshAreTold, TurnsAreTold, CoreRunsAreTold};
ghost use Rattle.pg_guest.specs.Transcripts.{EndedHaveToldAll, TranscriptsHoldAll};

/// New processors are at home in a new record.
pub fn fresh_are_at_home()
    ensures { FreshAreAtHome }
{}

/// A turn of a processor at home, in an accepted record, keeps both, and keeps every other
/// processor at home. It records one event at most. This holds also of a turn that is stopped.
pub fn turns_keep_home()
    ensures { TurnsKeepHome }
{}

/// An event of another processor keeps a processor at home.
pub fn others_stay_at_home()
    ensures { OthersStayAtHome }
{}

/// A turn of one of many processors keeps the record accepted and all of them at home.
pub fn turns_keep_quiet()
    ensures { TurnsKeepQuiet }
{}

/// Every core run keeps the record accepted and all processors at home.
pub fn core_runs_keep_quiet()
    ensures { CoreRunsKeepQuiet }
{}

/// Never a false alarm: the record of every core run of new processors is accepted.
pub fn core_runs_are_accepted()
    ensures { CoreRunsAreAccepted }
{}

/// A core run and a turn more are a core run.
pub fn core_runs_go_on()
    ensures { CoreRunsGoOn }
{}

/// A turn leaves the settings of a record, its segments given out and whether it is finished, and
/// the instructions and the MAXPHYADDR of its processor.
pub fn turns_leave()
    ensures { TurnsLeave }
{}

/// So does every core run, of all processors, and they stay as many.
pub fn core_runs_leave()
    ensures { CoreRunsLeave }
{}

/// New processors have nothing to tell.
pub fn fresh_are_told()
    ensures { FreshAreTold }
{}

/// A turn keeps the transcript of each processor the record's events of it, with their numbers,
/// which carried out its instructions up to its place.
pub fn turns_are_told()
    ensures { TurnsAreTold }
{}

/// So does every core run.
pub fn core_runs_are_told()
    ensures { CoreRunsAreTold }
{}

/// All transcripts together are as long as the record, where each event is of a processor: so they
/// hold no other event.
pub fn transcripts_hold_all()
    ensures { TranscriptsHoldAll }
{}

/// A processor that has ended has all its instructions in its transcript.
pub fn ended_have_told_all()
    ensures { EndedHaveToldAll }
{}

/// An entry that a read gives to be used is present and has no reserved bit: it refers to a table,
/// or maps a page.
pub fn entries_are_present()
    ensures { EntriesArePresent }
{}

/// A turn that only reads brings the walk of a processor at home further, and at most to its page.
pub fn reads_go_further()
    ensures { ReadsGoFurther }
{}

/// A turn that is not stopped carries the next instruction out, or brings it nearer by a measure of
/// 8 at most, in both versions.
pub fn turns_come_nearer()
    ensures { TurnsComeNearer }
{}

/// In version 1 no turn records an assist.
pub fn none_assist_in_version_one()
    ensures { NoneAssistInVersionOne }
{}

/// In every core run of a new record there are two assists at most for each table write, whatever
/// processors it begins with.
pub fn assists_are_few()
    ensures { AssistsAreFew }
{}

/// So there are three events at most for each instruction.
pub fn events_are_few()
    ensures { EventsAreFew }
{}

/// In version 1 five turns of a processor carry its instruction out, unless one of its own is
/// stopped, whatever the others do between.
pub fn five_turns_carry_out()
    ensures { FiveTurnsCarryOut }
{}

/// In both versions nine turns of a processor carry its instruction out, unless one of them is
/// stopped, where no other processor has a turn between.
pub fn nine_turns_carry_out()
    ensures { NineTurnsCarryOut }
{}
