//! What is judged while processors run.

ghost use Rattle.std.specs.Prelude.{◌≡◌, [], ◌++◌, List, IfOk, IfErr, IfSome};
ghost use Rattle.pg_event.specs.declared.event.Event.{Event};
ghost use Rattle.pg_event.specs.Spelling.{IsHead};
ghost use Rattle.pg_report.specs.Judging.{StopsJudging};
ghost use Rattle.pg_runner.specs.Given.{joined};
ghost use Rattle.pg_runner.specs.Live.{AreSegments, IsGivenNext, IsWant, IsWatched};

use crate::error::RunError;
use crate::given::{Count, Given, Naming};
use crate::shared::Shared;
use pg_event::{Event, Header};
use pg_pool::Gate;
use pg_report::{AuditError, Crew, Team};
use std::alloc::AllocError;
use std::marker::Model;
use std::sync::{Mutex, Wait};
use std::thread::Threads;

/// So many events are too many for a record.
const TOO_MANY: u64 = 4_294_967_296;

/// A round takes segments of so many events, if a segment for each checker does not have more.
const ROUND: u32 = 65_536;

/// The judges of the segments that were given out so far.
#[derive(Drop)]
pub(crate) struct LiveJudging<J: Naming> {
    /// None once a round was refused, or was not given what came next.
    team: Option<Team>,
    count: Count<J>,
    given: Given<J>,
}

impl<J: Naming> Model for LiveJudging<J> {
    ghost use Rattle.std.specs.Prelude.{IfSome};
    ghost use Rattle.pg_runner.specs.Given.{joined};
    ghost use Rattle.pg_runner.specs.Live.{IsWatched, Watch};

    ghost Value = { Watch };

    ghost view = { λ w. record { team = w.team; given = w.given } };

    ghost invariant = { λ w. IfSome w.team (λ team. IsWatched team (joined w.given)) };
}

/// Why a round was not judged, as a run gives it.
pub(crate) fn run_error(error: AuditError) -> RunError
    requires { StopsJudging error }
    ensures { IsWant result }
{
    match error {
        AuditError::Memory => RunError::Memory,
        AuditError::Thread => RunError::Thread,
        AuditError::Refused(_) | AuditError::Device | AuditError::Checkers => unreachable!(),
    }
}

/// How many segments a round takes.
fn most_segments(checkers: u32, header: &Header) -> u32
    requires { IsHead header.now }
{
    checkers.max(ROUND / header.segment)
}

/// What `Shared::give` gives, in one hold of the lock.
fn take_segments<R: Wait, H, J: Naming>(
    crew: &Crew<'_, R, H>,
    shared: &Mutex<Shared<'_, J>>,
    count: &Count<J>,
    known: &mut Given<J>,
    header: &Header,
    most: u32,
) -> Result<Option<Vec<Event>>, AllocError>
    ensures { IfOk result (λ given. IfSome given
        (λ events. IsGivenNext header.now events.items known.old known.new)) }
{
    shared
        .lock(crew.rt)
        .give(crew.alloc, count, known, header, most)
}

/// Judges a round of events more, whole segments. Where a record can't have so many, nobody judges
/// from then on.
fn judge_more<R: Threads + Wait + Sync, H: Gate>(
    crew: &Crew<'_, R, H>,
    team: Team,
    more: &[Event],
) -> Result<Option<Team>, RunError>
    requires watched { (events : List Event) × IsWatched team events }
    requires segments { AreSegments team.judged.head more.now }
    ensures ok { (events : List Event) → IsWatched team events →
        IfOk result (λ after. IfSome after (λ t. IsWatched t (events ++ more.now))) }
    ensures err { IfErr result IsWant }
{
    if more.len() as u64 >= TOO_MANY.saturating_sub(team.judged().len()) {
        return Ok(None);
    }
    match crew.judge(team, more) {
        Ok(after) => Ok(Some(after)),
        Err(error) => Err(run_error(error)),
    }
}

impl<J: Naming> LiveJudging<J> {
    /// No event yet.
    pub(crate) fn new<T, H>(
        crew: &Crew<'_, T, H>,
        header: Header,
        count: Count<J>,
        given: Given<J>,
    ) -> Result<LiveJudging<J>, AllocError>
        requires header { IsHead header }
        requires given { given ≡ [] }
    {
        let team = crew.team(header)?;
        Ok(LiveJudging {
            team: Some(team),
            count,
            given,
        })
    }

    /// How many segments were judged; more than there can be once no further are.
    pub(crate) fn segments(&self) -> u64 {
        match &self.team {
            Some(team) => team.judged().segments(),
            None => TOO_MANY,
        }
    }

    /// Takes segments that wait, and judges them by a round of checkers, without the lock.
    pub(crate) fn judge_round<R: Threads + Wait + Sync, H: Gate>(
        &mut self,
        crew: &Crew<'_, R, H>,
        shared: &Mutex<Shared<'_, J>>,
    ) -> Result<(), RunError>
        ensures { IfErr result IsWant }
    {
        let Some(team) = self.team.take() else {
            return Ok(());
        };
        let header = team.judged().header();
        let most = most_segments(crew.checkers, header);
        let known = &mut self.given;
        match take_segments(crew, shared, &self.count, known, header, most)? {
            Some(events) => {
                self.team = judge_more(crew, team, &events)?;
                Ok(())
            }
            None => Ok(()),
        }
    }

    /// The judges, where what was given out is what they judged.
    pub(crate) fn team_of(self, given: &Given<J>) -> Option<Team>
        ensures { IfSome result (λ team. IsWatched team (joined given.now)) }
    {
        let LiveJudging {
            team,
            count: _,
            given: judged,
        } = self;
        if !judged.agrees(given) {
            return None;
        }
        team
    }
}
