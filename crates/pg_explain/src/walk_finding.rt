//! What is found for the reasons that no end of a walk takes part in.

ghost use Rattle.std.specs.Prelude.{◌≡◌, ◌<◌, ◌≤◌, length, map};
ghost use Rattle.pg_entry.specs.declared.Level.TheVariants.{Four};
ghost use Rattle.pg_event.specs.Wants.{is_table};
ghost use Rattle.pg_chain.specs.Walked.{reading_of};
ghost use Rattle.pg_explain.specs.Findings.{limit_of, limit_number, order_at, order_finding};
ghost use Rattle.pg_explain.specs.Findings.{is_last, wish_at, is_wished, entry_at};
ghost use Rattle.pg_explain.specs.Findings.{entry_finding, tagged};
ghost use Rattle.pg_explain.specs.Findings.{context_at, context_finding, structure_drop};
ghost use Rattle.pg_explain.specs.Findings.{structure_at};
ghost use Rattle.pg_explain.specs.Findings.{structure_finding, walk_finding};

use crate::dropped::{CacheKey, first_drop};
use crate::finding::{Finding, Limit, Tagged, Wish};
use pg_chain::EntryRead;
use pg_check::History;
use pg_entry::{Cfg, Entry, Kind, Level, classify};
use pg_event::{Want, below, is_wanted, structure_key};

/// What an event asks of a walk.
#[derive(Clone, Copy)]
pub struct Asked {
    /// The number of the event.
    pub number: u32,
    pub p: u16,
    /// A linear byte address.
    pub la: u64,
    /// What the entry that is read last has to be.
    pub want: Want,
}

/// What a moment must not be above, where these are the moments after it.
fn limit_of(number: u32, rest: &[u32]) -> Limit
    ensures { result ≡ limit_of number rest.now }
{
    match rest.first() {
        Some(next) => Limit::Moment(*next),
        None => Limit::Event(number),
    }
}

fn limit_number(limit: Limit) -> u32
    ensures { result ≡ limit_number limit }
{
    match limit {
        Limit::Moment(number) | Limit::Event(number) => number,
    }
}

fn order_at(level: Level, moment: u32, limit: Limit) -> Option<Finding>
    ensures { result ≡ order_at level moment limit }
{
    if moment <= limit_number(limit) {
        None
    } else {
        Some(Finding::Order {
            level,
            moment,
            limit,
        })
    }
}

/// The first moment above the next one, or above the event.
fn order_finding(number: u32, moments: &[u32]) -> Option<Finding>
    ensures { result ≡ order_finding number Four moments.now }
{
    let mut level = Level::Four;
    for (i, moment) in moments.iter().enumerate() {
        let limit = limit_of(number, &moments[i + 1..]);
        if let Some(found) = order_at(level, *moment, limit) {
            return Some(found);
        }
        level = below(level);
    }
    None
}

/// Whether an entry refers to a table, in which a walk goes on.
pub fn is_table(kind: Kind) -> bool
    ensures { result ≡ is_table kind }
{
    match kind {
        Kind::Table { .. } => true,
        Kind::Leaf { .. } | Kind::Absent | Kind::Reserved => false,
    }
}

fn wish_at(want: Want, is_last: bool) -> Wish
    ensures { result ≡ wish_at want is_last }
{
    if is_last {
        Wish::Last(want)
    } else {
        Wish::Table
    }
}

fn is_wished(wish: Wish, kind: Kind) -> bool
    ensures { result ≡ is_wished wish kind }
{
    match wish {
        Wish::Last(want) => is_wanted(want, kind),
        Wish::Table => is_table(kind),
    }
}

fn entry_at(cfg: Cfg, wish: Wish, step: EntryRead) -> Option<Finding>
    requires { (36 ≤ cfg.m) × (cfg.m ≤ 52) }
    ensures { result ≡ entry_at cfg wish (reading_of step) }
{
    let kind = classify(cfg, step.level, Entry(step.value));
    if is_wished(wish, kind) {
        return None;
    }
    Some(Finding::Entry {
        level: step.level,
        wish,
        found: kind,
    })
}

/// Whether no steps come after one.
pub(crate) fn is_last(rest: &[EntryRead]) -> bool
    ensures { result ≡ is_last (map reading_of rest.now) }
{
    rest.is_empty()
}

/// The first entry that is not what it must be.
fn entry_finding(cfg: Cfg, want: Want, steps: &[EntryRead]) -> Option<Finding>
    requires { (36 ≤ cfg.m) × (cfg.m ≤ 52) }
    ensures { result ≡ entry_finding cfg want (map reading_of steps.now) }
{
    for (i, step) in steps.iter().enumerate() {
        let wish = wish_at(want, is_last(&steps[i + 1..]));
        if let Some(found) = entry_at(cfg, wish, *step) {
            return Some(found);
        }
    }
    None
}

/// A moment of a processor, with its PCID there.
pub(crate) fn tagged(history: &History, p: u16, moment: u32) -> Tagged
    requires { p < length history.now.head.processors }
    ensures { result ≡ tagged history.now.head history.now.events p moment }
{
    Tagged {
        moment,
        pcid: history.control_at(p, moment).pcid,
    }
}

fn context_at(first: Tagged, other: Tagged) -> Option<Finding>
    ensures { result ≡ context_at first other }
{
    if other.pcid == first.pcid {
        None
    } else {
        Some(Finding::Context { first, other })
    }
}

/// The first moment at which a processor has another PCID than at the first of all.
fn context_finding(history: &History, p: u16, first: Tagged, moments: &[u32]) -> Option<Finding>
    requires { p < length history.now.head.processors }
    ensures { result
        ≡ context_finding history.now.head history.now.events p first moments.now }
{
    for moment in moments {
        if let Some(found) = context_at(first, tagged(history, p, *moment)) {
            return Some(found);
        }
    }
    None
}

fn structure_drop(level: Level, at: Option<u32>) -> Option<Finding>
    ensures { result ≡ structure_drop level at }
{
    match at {
        Some(at) => Some(Finding::StructureDropped { level, at }),
        None => None,
    }
}

/// The first event by which the structure entry of a reading had to go before the next one.
fn structure_at(
    history: &History,
    p: u16,
    pcid: u16,
    la: u64,
    step: EntryRead,
    rest: &[EntryRead],
) -> Option<Finding>
    requires { p < length history.now.head.processors }
    ensures { result ≡ structure_at history.now.head history.now.events p pcid la
        (reading_of step) (map reading_of rest.now) }
{
    match rest.first() {
        Some(next) => {
            let key = CacheKey::Structure(structure_key(pcid, step.level, la));
            structure_drop(
                step.level,
                first_drop(history, p, key, step.moment, next.moment),
            )
        }
        None => None,
    }
}

/// The first event by which the structure entry of one of the readings had to go.
fn structure_finding(
    history: &History,
    p: u16,
    pcid: u16,
    la: u64,
    steps: &[EntryRead],
) -> Option<Finding>
    requires { p < length history.now.head.processors }
    ensures { result ≡ structure_finding history.now.head history.now.events p pcid la
        (map reading_of steps.now) }
{
    for (i, step) in steps.iter().enumerate() {
        if let Some(found) = structure_at(history, p, pcid, la, *step, &steps[i + 1..]) {
            return Some(found);
        }
    }
    None
}

/// What is found for the reasons of a walk by moments.
pub(crate) fn walk_finding(
    history: &History,
    asked: Asked,
    first: Tagged,
    moments: &[u32],
    steps: &[EntryRead],
) -> Option<Finding>
    requires { asked.p < length history.now.head.processors }
    ensures { result ≡ walk_finding history.now.head history.now.events asked first moments.now
        (map reading_of steps.now) }
{
    let Asked {
        number,
        p,
        la,
        want,
    } = asked;
    if let Some(found) = order_finding(number, moments) {
        return Some(found);
    }
    if let Some(found) = entry_finding(history.header().cfg, want, steps) {
        return Some(found);
    }
    if let Some(found) = context_finding(history, p, first, moments) {
        return Some(found);
    }
    structure_finding(history, p, first.pcid, la, steps)
}
