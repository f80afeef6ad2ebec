//! The judges of a record that is judged by several checkers.

ghost use Rattle.std.specs.Prelude.{◌≡◌, ◌+◌, [], All, List, IfOk, vec_len};
ghost use Rattle.pg_event.specs.declared.event.Event.{Event};
ghost use Rattle.pg_event.specs.Heads.{Head};
ghost use Rattle.pg_event.specs.Spelling.{IsHead};
ghost use Rattle.pg_check.specs.Judging.{HasNoted};
ghost use Rattle.pg_pool.specs.Rounds.{AreCheckers};
ghost use Rattle.pg_report.specs.Teams.{IsTeam};

use pg_check::{Judge, Judged, Tally, Window};
use pg_event::{Event, Header};
use std::alloc::{AllocError, Global};

/// A judge for each checker of a run, and what their judging has found. Each has noted all events
/// so far.
#[derive(Drop)]
pub struct Team {
    pub(crate) judged: Judged,
    /// The judges but that of `judged`.
    pub(crate) others: Vec<Judge>,
}

impl Team {
    /// So many judges of a run with no event yet. Fails where memory is refused.
    pub(crate) fn new(alloc: Global, header: Header, checkers: u32) -> Result<Team, AllocError>
        requires head { IsHead header }
        requires checkers { AreCheckers checkers }
        ensures team { IfOk result (λ team. IsTeam team header []) }
        ensures len { IfOk result (λ team. vec_len team.others + 1 ≡ checkers) }
    {
        let mut others = Vec::new(alloc);
        for _ in 1..checkers {
            others.push(Judge::new(alloc, &header)?)?;
        }
        Ok(Team {
            judged: Judged::new(alloc, header)?,
            others,
        })
    }

    /// What its judging has come to, and its judges, apart. Fails where memory is refused.
    pub(crate) fn apart(self) -> Result<(Tally, Vec<Judge>), AllocError>
        ensures head { IfOk result (λ r. IsHead r.0.header) }
        ensures tally { IfOk result (λ r. (r.0.header ≡ self.judged.head)
            × (r.0.count ≡ self.judged.count) × (r.0.first_bad ≡ self.judged.first_bad)) }
        ensures judges { (head : Head) (events : List Event) → IsTeam self head events →
            IfOk result (λ r. All (λ judge. HasNoted judge head events) r.1.items) }
        ensures len { IfOk result (λ r. vec_len r.1 ≡ vec_len self.others + 1) }
    {
        let Team { judged, others } = self;
        let (tally, judge) = judged.apart();
        let mut judges = others;
        judges.push(judge)?;
        Ok((tally, judges))
    }

    /// What judging the events so far has found.
    pub fn judged(&self) -> &Judged
        ensures { result.now ≡ self.now.judged }
    {
        &self.judged
    }
}

/// The events that come next, as a window.
pub(crate) fn window_of<'a>(tally: &Tally, events: &'a [Event]) -> Window<'a>
    ensures { (result.segment ≡ tally.now.header.segment) × (result.first ≡ tally.now.count)
        × (result.events.now ≡ events.now) }
{
    Window {
        segment: tally.header.segment,
        first: tally.count,
        events,
    }
}
