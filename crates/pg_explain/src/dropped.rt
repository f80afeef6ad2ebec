//! The first event that takes a cached entry out.

ghost use Rattle.std.specs.Prelude.{◌≡◌, ◌<◌, ◌≤◌, length, not, true, Some};
ghost use Rattle.pg_entry.specs.Kinds.{IsPageShift};
ghost use Rattle.pg_event.specs.Witness.{takes_out, survives, structure_survives};
ghost use Rattle.pg_event.specs.Witness.{translation_survives};
ghost use Rattle.pg_inval.specs.Drops.{IsTableLevel};
ghost use Rattle.pg_inval.specs.Lists.{IsFirstDrop};
ghost use Rattle.pg_explain.specs.Drops.{must_drop, is_dropped_at, first_drop, IsPageKey};

use pg_check::History;
use pg_entry::{Level, Rules};
use pg_event::{
    Control, Event, StructureKey, TranslationKey, must_drop_structure, must_drop_translation,
    processor_of,
};
use pg_timeline::Probes;

/// What names an entry of a processor's caches.
#[derive(Clone, Copy)]
pub enum CacheKey {
    Structure(StructureKey),
    Translation(TranslationKey),
}

fn must_drop(rules: Rules, key: CacheKey, control: Control, event: &Event) -> bool
    requires { IsPageKey key }
    ensures { result ≡ must_drop rules key control event.now }
{
    match key {
        CacheKey::Structure(structure) => must_drop_structure(rules, control, event, structure),
        CacheKey::Translation(translation) => {
            must_drop_translation(rules, control, event, translation)
        }
    }
}

/// Whether an event is of processor `p`, and takes an entry out.
fn takes_out(rules: Rules, p: u16, key: CacheKey, control: Control, event: &Event) -> bool
    requires { IsPageKey key }
    ensures { result ≡ takes_out p (must_drop rules key) control (Some event.now) }
{
    processor_of(event) == p && must_drop(rules, key, control, event)
}

/// Whether the event with this number is of processor `p`, and takes an entry out.
fn is_dropped_at(history: &History, p: u16, key: CacheKey, number: u32) -> bool
    requires processor { p < length history.now.head.processors }
    requires key { IsPageKey key }
    ensures { result ≡ is_dropped_at history.now.head history.now.events p key number }
{
    match history.events().get(number as usize) {
        Some(event) => {
            let rules = history.header().cfg.rules;
            takes_out(rules, p, key, history.control_at(p, number), event)
        }
        None => false,
    }
}

/// The moment up to which a paging-structure-cache entry of processor `p` survives from one on.
fn structure_end(history: &History, p: u16, key: StructureKey, from: u32) -> u32
    requires { IsTableLevel key.level }
    ensures order { from ≤ result }
    ensures survives { structure_survives history.now.head history.now.events p key from result
        ≡ true }
{
    let past = history.stretch().past;
    match past.first_drop_of_structure(p, key, from, &mut Probes::new()) {
        Some(first) => first,
        None => u32::MAX,
    }
}

/// The moment up to which a translation of processor `p` survives from one on.
fn translation_end(history: &History, p: u16, key: TranslationKey, from: u32) -> u32
    requires { IsPageShift key.shift }
    ensures order { from ≤ result }
    ensures survives { translation_survives history.now.head history.now.events p key from result
        ≡ true }
{
    let past = history.stretch().past;
    match past.first_drop_of_translation(p, key, from, &mut Probes::new()) {
        Some(first) => first,
        None => u32::MAX,
    }
}

/// A moment up to which an entry of processor `p` survives from one on. No entry of level 1 is kept
/// as a structure, so nothing is known of such a one.
fn survives_to(history: &History, p: u16, key: CacheKey, from: u32) -> u32
    requires { IsPageKey key }
    ensures order { from ≤ result }
    ensures survives { survives history.now.head history.now.events p
        (must_drop history.now.head.cfg.rules key) from result ≡ true }
{
    match key {
        CacheKey::Structure(structure) => match structure.level {
            Level::Four | Level::Three | Level::Two => structure_end(history, p, structure, from),
            Level::One => from,
        },
        CacheKey::Translation(translation) => translation_end(history, p, translation, from),
    }
}

/// The first event, from one moment up to, not with, another, by which processor `p` had to drop an
/// entry. The past says up to where no event did.
pub(crate) fn first_drop(
    history: &History,
    p: u16,
    key: CacheKey,
    from: u32,
    to: u32,
) -> Option<u32>
    requires processor { p < length history.now.head.processors }
    requires key { IsPageKey key }
    ensures value { result ≡ first_drop history.now.head history.now.events p key from to }
    ensures first { IsFirstDrop
        (λ a b. not (survives history.now.head history.now.events p
        (must_drop history.now.head.cfg.rules key) a b))
        from to result }
{
    for number in survives_to(history, p, key, from)..to {
        if is_dropped_at(history, p, key, number) {
            return Some(number);
        }
    }
    None
}
