//! The cause of a rejection, and whether other moments would do.

ghost use Rattle.std.specs.Prelude.{◌≡◌, ◌<◌, ◌≤◌, true, length, map, slice_get, IfOk};
ghost use Rattle.std.specs.Prelude.{IfSome, IfNone, MatchOption};
ghost use Rattle.pg_event.specs.Form.{processor_of};
ghost use Rattle.pg_event.specs.Witness.{failing_access, failing_assist};
ghost use Rattle.pg_event.specs.Witness.{failing_event, Witnessed};
ghost use Rattle.pg_chain.specs.Walked.{reading_of};
ghost use Rattle.pg_search.specs.Last.{HasNoLast, IsLast};
ghost use Rattle.pg_search.specs.Law.{names_moments};
ghost use Rattle.pg_explain.specs.Explained.{IsWalkOf, TellsEvent, IsExplained};
ghost use Rattle.pg_explain.specs.Findings.{first_tag, claim_finding, access_finding};
ghost use Rattle.pg_explain.specs.Findings.{mark_finding, assist_finding, event_finding};
ghost use Rattle.pg_explain.specs.Walk.{IsWalk};
ghost use Rattle.pg_explain.specs.Writers.{AreKnown};

use crate::end_finding::end_finding;
use crate::entry::{WalkEntry, last_step, read_steps, tell};
use crate::finding::{Finding, Tagged};
use crate::flag_finding::{accessed_finding, flag_finding, update_finding};
use crate::walk_finding::{Asked, tagged, walk_finding};
use crate::writer_index::WriterIndex;
use pg_chain::EntryRead;
use pg_check::History;
use pg_event::{Claim, Event, Moments, Request, Update, Want, processor_of, want_of};
use pg_reach::{freshest_moments, last_moments};
use pg_search::{Last, Seen};
use std::alloc::{AllocError, Global};

/// The cause of a rejection.
#[derive(Drop)]
pub struct Explanation {
    /// The number of the event.
    pub number: u32,
    /// The entries that its moments name, from level 4 down. What stands below an entry that is no
    /// table was read as if it were one.
    pub walk: Vec<WalkEntry>,
    /// What was found for the reason.
    pub finding: Finding,
    /// The freshest moments that prove the event in the place of its own. Where there are none, no
    /// moments do, and no run of the machine has the events up to this one.
    pub other: Option<Moments>,
    /// Where there are none, when the event would last have been witnessed, had it come earlier,
    /// and by which moments.
    pub last: Option<Last>,
}

/// The walk of an event that is not witnessed, and what was found for the reason.
#[derive(Drop)]
pub struct Told {
    pub walk: Vec<WalkEntry>,
    pub finding: Finding,
}

/// The first moment of a processor, with its PCID.
fn first_tag(history: &History, p: u16, moments: &[u32]) -> Tagged
    requires processor { p < length history.now.head.processors }
    requires some { 1 ≤ length moments.now }
    ensures { result ≡ first_tag history.now.head history.now.events p moments.now }
{
    tagged(history, p, moments[0])
}

/// What is found for the reason of an access, by what its moments read.
fn claim_finding(
    history: &History,
    claim: &Claim,
    first: Tagged,
    moments: &[u32],
    steps: &[EntryRead],
) -> Option<Finding>
    requires processor { claim.now.p < length history.now.head.processors }
    requires some { 1 ≤ length steps.now }
    ensures { result ≡ claim_finding history.now.head history.now.events claim.now first
        moments.now (map reading_of steps.now) }
{
    let Claim { number, p, la, .. } = *claim;
    let want = want_of(claim.outcome);
    let asked = Asked {
        number,
        p,
        la,
        want,
    };
    if let Some(found) = walk_finding(history, asked, first, moments, steps) {
        return Some(found);
    }
    let end = last_step(steps);
    if let Some(found) = end_finding(history, claim, first.pcid, end) {
        return Some(found);
    }
    flag_finding(history.header().version, claim, steps, end)
}

/// What is found for the reason of an assist, by what its moments read.
fn mark_finding(
    history: &History,
    update: &Update,
    first: Tagged,
    moments: &[u32],
    steps: &[EntryRead],
) -> Option<Finding>
    requires processor { update.now.p < length history.now.head.processors }
    requires some { 1 ≤ length steps.now }
    ensures { result ≡ mark_finding history.now.head history.now.events update.now first
        moments.now (map reading_of steps.now) }
{
    let Update { number, p, la, .. } = *update;
    let want = Want::Present;
    let asked = Asked {
        number,
        p,
        la,
        want,
    };
    if let Some(found) = walk_finding(history, asked, first, moments, steps) {
        return Some(found);
    }
    if let Some(found) = accessed_finding(false, steps) {
        return Some(found);
    }
    update_finding(history.header().cfg, update, last_step(steps))
}

/// What is told of an access.
fn tell_access(
    alloc: Global,
    history: &History,
    writers: &Option<WriterIndex<'_>>,
    claim: &Claim,
    moments: &[u32],
) -> Result<Option<Told>, AllocError>
    requires writers { AreKnown history.now.events writers.now }
    requires processor { claim.now.p < length history.now.head.processors }
    requires some { 1 ≤ length moments.now }
    ensures { IfOk result (TellsEvent
        (failing_access history.now.head history.now.events claim.now moments.now)
        (access_finding history.now.head history.now.events claim.now moments.now)
        (IsWalk history.now.head history.now.events claim.now.p claim.now.la moments.now)) }
{
    let p = claim.p;
    let seen = Seen::of(history);
    let steps = read_steps(alloc, &seen, p, claim.la, moments)?;
    let first = first_tag(history, p, moments);
    match claim_finding(history, claim, first, moments, &steps) {
        None => Ok(None),
        Some(finding) => {
            let walk = tell(alloc, &seen, writers, p, &steps)?;
            Ok(Some(Told { walk, finding }))
        }
    }
}

/// What is told of an assist.
fn tell_assist(
    alloc: Global,
    history: &History,
    writers: &Option<WriterIndex<'_>>,
    update: &Update,
    moments: &[u32],
) -> Result<Option<Told>, AllocError>
    requires writers { AreKnown history.now.events writers.now }
    requires processor { update.now.p < length history.now.head.processors }
    requires some { 1 ≤ length moments.now }
    ensures { IfOk result (TellsEvent
        (failing_assist history.now.head history.now.events update.now moments.now)
        (assist_finding history.now.head history.now.events update.now moments.now)
        (IsWalk history.now.head history.now.events update.now.p update.now.la moments.now)) }
{
    let p = update.p;
    let seen = Seen::of(history);
    let steps = read_steps(alloc, &seen, p, update.la, moments)?;
    let first = first_tag(history, p, moments);
    match mark_finding(history, update, first, moments, &steps) {
        None => Ok(None),
        Some(finding) => {
            let walk = tell(alloc, &seen, writers, p, &steps)?;
            Ok(Some(Told { walk, finding }))
        }
    }
}

/// What is told of an event with this number.
fn tell_event(
    alloc: Global,
    history: &History,
    writers: &Option<WriterIndex<'_>>,
    number: u32,
    event: &Event,
) -> Result<Option<Told>, AllocError>
    requires processor { processor_of event.now < length history.now.head.processors }
    requires writers { AreKnown history.now.events writers.now }
    ensures { IfOk result (TellsEvent
        (failing_event history.now.head history.now.events number event.now)
        (event_finding history.now.head history.now.events number event.now)
        (IsWalkOf history.now.head history.now.events event.now)) }
{
    let p = processor_of(event);
    match event.request() {
        Request::Nothing => Ok(None),
        Request::Access {
            kind,
            la,
            outcome,
            moments,
        } => {
            let claim = Claim {
                number,
                p,
                kind,
                la,
                outcome,
            };
            tell_access(alloc, history, writers, &claim, moments.as_slice())
        }
        Request::Update {
            kind,
            la,
            word,
            dirty,
            moments,
        } => {
            let update = Update {
                number,
                p,
                kind,
                la,
                word,
                dirty,
            };
            tell_assist(alloc, history, writers, &update, moments.as_slice())
        }
    }
}

/// When an event would last have been witnessed, where no moments prove it.
fn last_of(
    alloc: Global,
    history: &History,
    i: u64,
    other: &Option<Moments>,
) -> Result<Option<Last>, AllocError>
    requires within { i < length history.now.events }
    requires names { IfSome (slice_get history.now.events i) (λ e. names_moments e ≡ true) }
    ensures last { IfOk result (λ last. IfNone other.now
        (IfSome last (IsLast history.now.head history.now.events i))) }
    ensures never { IfOk result (λ last. IfNone other.now
        (IfNone last (HasNoLast history.now.head history.now.events i))) }
{
    match other {
        None => last_moments(alloc, history, i),
        Some(_) => Ok(None),
    }
}

/// The explanation of the least reason that fails for an event, or `None` where the event is
/// witnessed.
///
/// The past is asked for the freshest other moments that prove the event and, where there are none,
/// for when the event would last have been witnessed. Fails only when out of memory.
///
/// Who wrote an entry is looked up among writers, where they are given, and otherwise in a pass
/// over the events.
pub fn explain_with(
    alloc: Global,
    history: &History,
    writers: &Option<WriterIndex<'_>>,
    i: u64,
) -> Result<Option<Explanation>, AllocError>
    requires within { i < length history.now.events }
    requires writers { AreKnown history.now.events writers.now }
    ensures { IfOk result (λ x. MatchOption x
        (Witnessed history.now.head history.now.events i)
        (IsExplained history.now.head history.now.events i)) }
{
    let event = history.events()[i as usize];
    let number = i as u32;
    match tell_event(alloc, history, writers, number, &event)? {
        None => Ok(None),
        Some(Told { walk, finding }) => {
            let other = freshest_moments(alloc, history, i)?;
            let last = last_of(alloc, history, i, &other)?;
            Ok(Some(Explanation {
                number,
                walk,
                finding,
                other,
                last,
            }))
        }
    }
}

/// What `explain_with` gives, of one event: who wrote its entries takes a pass over the events for
/// each.
pub fn explain(alloc: Global, history: &History, i: u64) -> Result<Option<Explanation>, AllocError>
    requires { i < length history.now.events }
    ensures { IfOk result (λ x. MatchOption x
        (Witnessed history.now.head history.now.events i)
        (IsExplained history.now.head history.now.events i)) }
{
    explain_with(alloc, history, &None, i)
}
