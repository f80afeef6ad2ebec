//! What an event that names moments asks.

ghost use Rattle.std.specs.Prelude.{◌≡◌, ◌<◌, true, false, length, MatchOption, IfSome};
ghost use Rattle.pg_event.specs.Form.{processor_of};
ghost use Rattle.pg_search.specs.Law.{names_moments};

use crate::recent_lookups::RecentLookups;
use pg_event::{Event, Outcome, Request, processor_of, uses_last, want_of};
use pg_search::Seen;

/// What an event asks of its processor for an address: a page, the word that an assist names, or
/// another entry.
#[derive(Clone, Copy)]
pub(crate) enum Asks {
    Page,
    Word(u64),
    Entry,
}

/// An event that names moments: its number, its processor and PCID, the address, and what it asks.
#[derive(Clone, Copy)]
pub(crate) struct Case {
    pub i: u32,
    pub p: u16,
    pub pcid: u16,
    pub la: u64,
    pub asks: Asks,
}

/// What an access asks.
fn asks_of(outcome: Outcome) -> Asks {
    if uses_last(want_of(outcome)) {
        Asks::Page
    } else {
        Asks::Entry
    }
}

/// What an event asks, if it names moments.
#[inline(always)]
pub(crate) fn case_of(
    seen: &Seen<'_>,
    recent: &mut RecentLookups,
    i: u32,
    event: &Event,
) -> Option<Case>
    requires processor { processor_of event.now < length seen.now.head.processors }
    ensures number { IfSome result (λ case. case.i ≡ i) }
    ensures processor { IfSome result (λ case. case.p < length seen.now.head.processors) }
    ensures names { MatchOption result (names_moments event.now ≡ false)
        (λ case. names_moments event.now ≡ true) }
{
    let (la, asks) = match event.request() {
        Request::Access { la, outcome, .. } => (la, asks_of(outcome)),
        Request::Update { la, word, .. } => (la, Asks::Word(word)),
        Request::Nothing => return None,
    };
    let p = processor_of(event);
    let pcid = recent.pcid_at(seen, p, i);
    Some(Case {
        i,
        p,
        pcid,
        la,
        asks,
    })
}

/// The physical address that an access came to, if it was done.
pub(crate) fn page_of(event: &Event) -> Option<u64> {
    match event.request() {
        Request::Access { outcome, .. } => match outcome {
            Outcome::Page(page) => Some(page),
            Outcome::Fault(_) => None,
        },
        Request::Update { .. } | Request::Nothing => None,
    }
}

/// Whether an address that a walk gives may be what an event was served by.
pub(crate) fn may_serve(event: &Event, address: Option<u64>) -> bool {
    match page_of(event) {
        Some(page) => address == Some(page),
        None => address.is_some(),
    }
}
