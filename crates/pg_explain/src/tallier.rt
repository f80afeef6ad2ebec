//! What the bad events of a run have in common, reason by reason.

ghost use Rattle.std.specs.Prelude.{◌≡◌, map, IfOk, MatchOption, true, false};
ghost use Rattle.std.specs.List.{filter};
ghost use Rattle.pg_explain.specs.Tallies.{place, has_reason, having, is_met, AreAscending};
ghost use Rattle.pg_explain.specs.Tallies.{IsTally, AreTalliesOf, AreTallies, CountsAddUp};

use crate::bad_events::Bad;
use pg_event::Reason;
use std::alloc::{AllocError, Global};

/// What the bad events with one reason have in common.
#[derive(Drop)]
pub struct Tally {
    pub reason: Reason,
    /// How many there are.
    pub count: u64,
    /// The number of the first.
    pub first: u32,
    /// Their processors, ascending, each once.
    pub processors: Vec<u64>,
    /// The first addresses of the pages that they access, ascending, each once.
    pub pages: Vec<u64>,
}

/// The reasons in their order.
const REASONS: [Reason; 13] = [
    Reason::Order,
    Reason::Entry,
    Reason::Context,
    Reason::StructureDropped,
    Reason::TranslationDropped,
    Reason::ForeignPcid,
    Reason::NotAtEvent,
    Reason::Rights,
    Reason::Answer,
    Reason::Code,
    Reason::Accessed,
    Reason::Dirty,
    Reason::Assist,
];

/// The place of a reason in their order.
fn place(reason: Reason) -> u8
    ensures { result ≡ place reason }
{
    match reason {
        Reason::Order => 1,
        Reason::Entry => 2,
        Reason::Context => 3,
        Reason::StructureDropped => 4,
        Reason::TranslationDropped => 5,
        Reason::ForeignPcid => 6,
        Reason::NotAtEvent => 7,
        Reason::Rights => 8,
        Reason::Answer => 9,
        Reason::Code => 10,
        Reason::Accessed => 11,
        Reason::Dirty => 12,
        Reason::Assist => 13,
    }
}

fn has_reason(reason: Reason, bad: &Bad) -> bool
    ensures { result ≡ has_reason reason bad.now }
{
    place(bad.reason) == place(reason)
}

/// The bad events with a reason.
fn having(alloc: Global, reason: Reason, bads: &[Bad]) -> Result<Vec<Bad>, AllocError>
    ensures { IfOk result (λ found. found.items ≡ having reason bads.now) }
{
    bads.iter()
        .copied()
        .filter(|bad| has_reason(reason, bad))
        .collect(alloc)
}

/// The same numbers, ascending, each once.
fn ascending(numbers: Vec<u64>) -> Vec<u64>
    ensures { AreAscending numbers.items result.items }
{
    let mut numbers = numbers;
    numbers.sort_unstable();
    numbers.dedup();
    numbers
}

fn processors_of(alloc: Global, bads: &[Bad]) -> Result<Vec<u64>, AllocError>
    ensures { IfOk result (λ found. AreAscending (map (λ x. x.p) bads.now) found.items) }
{
    let all = bads.iter().map(|bad| bad.p as u64).collect(alloc)?;
    Ok(ascending(all))
}

fn pages_of(alloc: Global, bads: &[Bad]) -> Result<Vec<u64>, AllocError>
    ensures { IfOk result (λ found. AreAscending (map (λ x. x.page) bads.now) found.items) }
{
    let all = bads.iter().map(|bad| bad.page).collect(alloc)?;
    Ok(ascending(all))
}

/// What the bad events with a reason have in common, if there are any.
fn tally_of(alloc: Global, reason: Reason, bads: &[Bad]) -> Result<Option<Tally>, AllocError>
    ensures { IfOk result (λ told. MatchOption told (is_met bads.now reason ≡ false)
        (λ t. (is_met bads.now reason ≡ true) × (t.reason ≡ reason) × IsTally bads.now t)) }
{
    let found = having(alloc, reason, bads)?;
    if found.is_empty() {
        return Ok(None);
    }
    Ok(Some(Tally {
        reason,
        count: found.len() as u64,
        first: found[0].number,
        processors: processors_of(alloc, &found)?,
        pages: pages_of(alloc, &found)?,
    }))
}

/// A tally for each of these reasons that some bad event has.
fn tallies_of(alloc: Global, reasons: &[Reason], bads: &[Bad]) -> Result<Vec<Tally>, AllocError>
    ensures { IfOk result (λ ts. AreTalliesOf reasons.now bads.now ts.items) }
{
    let mut tallies = Vec::new(alloc);
    for reason in reasons {
        if let Some(tally) = tally_of(alloc, *reason, bads)? {
            tallies.push(tally)?;
        }
    }
    Ok(tallies)
}

/// A tally for each reason that some bad event has, in the reasons' order. Fails only when out of
/// memory.
pub fn tallies(alloc: Global, bads: &[Bad]) -> Result<Vec<Tally>, AllocError>
    ensures { IfOk result (λ ts. AreTallies bads.now ts.items) }
{
    tallies_of(alloc, &REASONS, bads)
}

/// The tallies of a run count each of its bad events once.
pub fn counts_add_up()
    ensures { CountsAddUp }
{}
