//! Windows that are judged by checkers.

ghost use Rattle.std.specs.Prelude.{◌≡◌, ◌≢◌, ◌+◌, ◌≤◌, ◌<◌, ◌++◌, [], ℕ, List};
ghost use Rattle.std.specs.Prelude.{IfOk, IfErr, vec_len};
ghost use Rattle.pg_event.specs.declared.event.Event.{Event};
ghost use Rattle.pg_event.specs.Heads.{Head};
ghost use Rattle.pg_event.specs.Spelling.{IsHead, Recorded};
ghost use Rattle.pg_pool.specs.Rounds.{AreCheckers};
ghost use Rattle.pg_report.specs.Judging.{StopsJudging};
ghost use Rattle.pg_report.specs.Rounds.{IsFoundIn, round_verdicts};
ghost use Rattle.pg_report.specs.Teams.{HasOutcome, IsTeam, MayGoOn};
ghost use Rattle.pg_report.specs.Text.{verdict_of};

use crate::error::{AuditError, MergeError};
use crate::merger::merge;
use crate::report::Verdict;
use crate::team::{Team, window_of};
use pg_check::{Judged, SegmentVerdict, Tally, Window};
use pg_event::{Event, Header, Reason};
use pg_pool::{Beside, Gate, NoWork, PoolError, Round, WindowJudged, judge_window_beside};
use std::alloc::{AllocError, Global};
use std::sync::Wait;
use std::thread::Threads;

/// Judges by so many checkers, which take the segments of a window and steal from one another.
/// Each has a thread of its own in each window, and goes on by what it knows of the run so far.
pub struct Crew<'a, T, G> {
    pub rt: &'a T,
    pub alloc: Global,
    pub checkers: u32,
    pub gate: &'a G,
    ghost few: { AreCheckers checkers },
}

// By hand, since a derive would ask it of the runtime and of the gate.
impl<'a, T, G> Drop for Crew<'a, T, G> {
    fn drop(self) {
        let Crew {
            rt: _,
            alloc: _,
            checkers: _,
            gate: _,
        } = self;
    }
}

/// The bad event that a verdict tells.
fn bad_of(verdict: Verdict) -> Option<(u64, Reason)>
    ensures { verdict ≡ verdict_of result }
{
    match verdict {
        Verdict::Yes => None,
        Verdict::No { event, reason } => Some((event, reason)),
    }
}

/// Why a round was not judged, as an audit gives it.
fn pool_error(error: PoolError) -> AuditError
    requires { error ≢ PoolError.Checkers }
    ensures stops { StopsJudging result }
    ensures memory { error ≡ PoolError.Memory → result ≡ AuditError.Memory }
    ensures thread { error ≡ PoolError.Thread → result ≡ AuditError.Thread }
{
    match error {
        PoolError::Memory => AuditError::Memory,
        PoolError::Thread => AuditError::Thread,
        // The number of checkers was looked at before anything was read.
        PoolError::Checkers => unreachable!(),
    }
}

/// Why the verdicts of a round came to nothing, as an audit gives it.
fn merge_error(error: MergeError) -> AuditError
    requires { error ≡ MergeError.Memory }
    ensures stops { StopsJudging result }
    ensures memory { result ≡ AuditError.Memory }
{
    match error {
        MergeError::Memory => AuditError::Memory,
        // A round gives one verdict for each of its segments, and no other.
        MergeError::Double(_) | MergeError::Stranger(_) | MergeError::Missing(_) => {
            unreachable!()
        }
    }
}

/// The first bad event that the verdicts of a round's segments tell, if there are any.
fn found_in(
    alloc: Global,
    verdicts: &[SegmentVerdict],
    round: Round,
) -> Result<Option<(u64, Reason)>, AuditError>
    requires ordered { round.first ≤ round.last }
    requires each { (r : Recorded) × (verdicts.now ≡ round_verdicts r round) }
    ensures ok { (r : Recorded) → verdicts.now ≡ round_verdicts r round →
        IfOk result (IsFoundIn r round) }
    ensures err { IfErr result StopsJudging }
{
    match merge(alloc, verdicts, round) {
        Ok(verdict) => Ok(bad_of(verdict)),
        Err(error) => Err(merge_error(error)),
    }
}

/// What judging has come to once a round over a window has ended.
fn settled(
    alloc: Global,
    tally: Tally,
    window: &Window<'_>,
    judged: WindowJudged,
) -> Result<Team, AuditError>
    requires head { IsHead tally.header }
    requires outcome { (head : Head) × (before : List Event)
        × HasOutcome tally head before window.now judged }
    requires few { AreCheckers (vec_len judged.judges) }
    ensures ok { (head : Head) (before : List Event) →
        HasOutcome tally head before window.now judged →
        IfOk result (λ team. IsTeam team head (before ++ window.now.events.now)) }
    ensures len { IfOk result (λ team. vec_len team.others + 1 ≡ vec_len judged.judges) }
    ensures err { IfErr result StopsJudging }
{
    let WindowJudged {
        round,
        verdicts,
        judges,
    } = judged;
    let mut others = judges;
    let Some(judge) = others.pop() else {
        unreachable!()
    };
    let mut judged = Judged::together(tally, judge);
    match found_in(alloc, &verdicts, round) {
        Ok(found) => {
            judged.settle(window.events, found);
            Ok(Team { judged, others })
        }
        Err(error) => Err(error),
    }
}

/// What judging has come to once a round over a window has ended, unless it was refused.
fn settled_if(
    alloc: Global,
    tally: Tally,
    window: &Window<'_>,
    judged: Result<WindowJudged, PoolError>,
) -> Result<Team, AuditError>
    requires head { IsHead tally.header }
    requires outcome { (head : Head) × (before : List Event)
        × IfOk judged (HasOutcome tally head before window.now) }
    requires few { IfOk judged (λ j. AreCheckers (vec_len j.judges)) }
    requires known { IfErr judged (λ e. e ≢ PoolError.Checkers) }
    ensures ok { (head : Head) (before : List Event) →
        IfOk judged (HasOutcome tally head before window.now) →
        IfOk result (λ team. IsTeam team head (before ++ window.now.events.now)) }
    ensures len { (n : ℕ) → IfOk judged (λ j. vec_len j.judges ≡ n) →
        IfOk result (λ team. vec_len team.others + 1 ≡ n) }
    ensures err { IfErr result StopsJudging }
{
    match judged {
        Ok(judged) => settled(alloc, tally, window, judged),
        Err(error) => Err(pool_error(error)),
    }
}

impl<'a, T, G> Crew<'a, T, G> {
    /// As many judges as there are checkers, of a run with no event yet. Fails where memory is
    /// refused.
    pub fn team(&self, header: Header) -> Result<Team, AllocError>
        requires { IsHead header }
        ensures team { IfOk result (λ team. IsTeam team header []) }
        ensures len { IfOk result (λ team. vec_len team.others + 1 ≡ self.now.checkers) }
    {
        Team::new(self.alloc, header, self.checkers)
    }
}

impl<'a, T: Threads + Wait + Sync, G: Gate> Crew<'a, T, G> {
    /// Judges the events that come next, whole segments but for the last of the run, while the
    /// calling thread does a piece of work; that is done once, also after an error. Each segment is
    /// judged, also after a bad one. After an error the team is gone.
    pub(crate) fn judge_beside<B: Beside>(
        &self,
        team: Team,
        events: &[Event],
        beside: B,
    ) -> (Result<Team, AuditError>, B::Output)
        requires next { MayGoOn team events.now }
        requires beside { B.can_run beside }
        ensures ok { (head : Head) (before : List Event) → IsTeam team head before →
            IfOk result.0 (λ after. IsTeam after head (before ++ events.now)) }
        ensures len { IfOk result.0 (λ after. vec_len after.others ≡ vec_len team.others) }
        ensures err { IfErr result.0 StopsJudging }
        ensures beside { B.gives beside result.1 }
    {
        if events.is_empty() {
            return (Ok(team), beside.run());
        }
        let (tally, judges) = match team.apart() {
            Ok(parts) => parts,
            Err(_) => return (Err(AuditError::Memory), beside.run()),
        };
        let window = window_of(&tally, events);
        let (judged, output) = judge_window_beside(
            self.rt, self.alloc, &window, judges, self.gate, beside,
        );
        (settled_if(self.alloc, tally, &window, judged), output)
    }

    /// Judges the events that come next, whole segments but for the last of the run. After an error
    /// the team is gone.
    pub fn judge(&self, team: Team, events: &[Event]) -> Result<Team, AuditError>
        requires next { MayGoOn team events.now }
        ensures ok { (head : Head) (before : List Event) → IsTeam team head before →
            IfOk result (λ after. IsTeam after head (before ++ events.now)) }
        ensures len { IfOk result (λ after. vec_len after.others ≡ vec_len team.others) }
        ensures err { IfErr result StopsJudging }
    {
        let (result, ()) = self.judge_beside(team, events, NoWork);
        result
    }
}
