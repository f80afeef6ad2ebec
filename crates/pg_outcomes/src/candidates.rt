//! Outcomes among which are all that an access may have.

ghost use Rattle.std.specs.Prelude.{◌≡◌, ◌≤◌, ◌++◌, true, None, length, map, IfOk, OnOk};
ghost use Rattle.pg_event.specs.declared.event.Outcome.TheVariants.{Page};
ghost use Rattle.pg_reach.specs.Placed.{is_access};
ghost use Rattle.pg_outcomes.specs.Candidates.{faults_of, AreCandidates};

use crate::pages::pages;
use pg_entry::{AccessKind, Cause, Cfg, error_code};
use pg_event::{Event, Outcome, access_kind};
use pg_search::Seen;
use std::alloc::{AllocError, Global};

/// These addresses as outcomes.
fn as_outcomes(alloc: Global, pages: &[u64]) -> Result<Vec<Outcome>, AllocError>
    ensures { IfOk result (λ outcomes. outcomes.items ≡ map Page pages.now) }
{
    pages.iter().map(|page| Outcome::Page(*page)).collect(alloc)
}

/// Adds the faults of an access, one for each cause, the lowest code first.
fn add_faults(outcomes: &mut Vec<Outcome>, cfg: Cfg, kind: AccessKind) -> Result<(), AllocError>
    ensures { OnOk result
        (outcomes.new.items ≡ outcomes.old.items ++ faults_of cfg kind) }
{
    outcomes.extend_from_slice(&[
        Outcome::Fault(error_code(cfg, kind, Cause::Absent)),
        Outcome::Fault(error_code(cfg, kind, Cause::Denied)),
        Outcome::Fault(error_code(cfg, kind, Cause::Reserved)),
    ])
}

/// Outcomes in rising order, among which are all that the access may have as the event with this
/// number: the addresses by all values that words had before it, and the faults.
pub(crate) fn candidates(
    alloc: Global,
    seen: &Seen<'_>,
    number: u32,
    event: &Event,
) -> Result<Vec<Outcome>, AllocError>
    requires within { number ≤ length seen.now.events }
    requires access { is_access event.now ≡ true }
    ensures { IfOk result (λ outcomes. AreCandidates seen.now number event.now outcomes.items) }
{
    let Event::Access { flags, la, .. } = *event else {
        return Ok(Vec::new(alloc));
    };
    let pages = pages(alloc, seen, number, la)?;
    let mut outcomes = as_outcomes(alloc, &pages)?;
    add_faults(&mut outcomes, seen.header().cfg, access_kind(flags))?;
    Ok(outcomes)
}
