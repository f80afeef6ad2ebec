//! Walks by moments, and how long the translations last that they give.

ghost use Rattle.std.specs.Prelude.{◌≡◌, ◌&&◌, ◌<◌, ◌≤◌, ◌-◌, ◌^◌, ℕ, Bool, List};
ghost use Rattle.std.specs.Prelude.{IfOk, IsTrue, Option, None};
ghost use Rattle.pg_event.specs.declared.event.Event.{Event};
ghost use Rattle.pg_event.specs.Heads.{Head};
ghost use Rattle.pg_event.specs.Values.{control_at};
ghost use Rattle.pg_chain.specs.Standing.{IsPast, processor_count};
ghost use Rattle.pg_check.specs.Lasting.{IsLasting, IsAsked, IsWalk, IsFirstToPass};

use pg_chain::{Chain, Reader, chain_by, kind_at};
use pg_entry::Kind;
use pg_event::{Moments, Reason, Want, translation_key};

/// A walk by moments, and what becomes of the translation that it gives.
#[derive(Clone, Copy)]
pub struct Lasting {
    pub chain: Chain,
    /// Up to this event, not with it, it was looked up when the translation had to go.
    pub asked: u32,
    /// The first event from the last reading on at which it had to go, if one of those is.
    pub dropped: Option<u32>,
    /// Whether the translation is global.
    pub global: bool,
}

/// For which event it is asked whether the translation of a walk had to go before it.
#[derive(Clone, Copy)]
pub struct Asking {
    /// The number of the event.
    pub number: u32,
    /// Where it is not known for that event, it is asked up to this one, if it is later.
    pub to: u32,
}

/// Whether a translation that a leaf gives is global: the leaf's bit 8 is set, and CR4.PGE was when
/// it was read.
fn is_global(reader: &mut Reader<'_>, p: u16, moment: u32, global_bit: bool) -> bool
    requires { p < processor_count reader.old }
    ensures past { reader.new ≡ reader.old }
    ensures global { (head : Head) (events : List Event) → IsPast reader.old head events →
        result ≡ (global_bit && (control_at head events p moment).pge) }
{
    global_bit && reader.control_at(p, moment).pge
}

/// The translation that a walk gives, of which nothing was looked up yet.
fn lasting_chain(reader: &mut Reader<'_>, p: u16, la: u64, chain: Chain) -> Lasting
    requires { p < processor_count reader.old }
    ensures past { reader.new ≡ reader.old }
    ensures chain { result.chain ≡ chain }
    ensures lasting { (head : Head) (events : List Event) → IsPast reader.old head events →
        IsLasting head events p la result }
{
    let end = chain.end;
    match kind_at(reader.cfg(), end) {
        Kind::Leaf { global_bit, .. } => Lasting {
            chain,
            global: is_global(reader, p, end.moment, global_bit),
            asked: end.moment,
            dropped: None,
        },
        Kind::Table { .. } | Kind::Absent | Kind::Reserved => Lasting {
            chain,
            global: false,
            asked: end.moment,
            dropped: None,
        },
    }
}

/// Whether it is known of a walk if its translation had to go before the event with this number.
pub fn is_asked(walk: &Lasting, number: u32) -> bool
    ensures { IsTrue result → IsAsked number walk.now }
{
    match walk.dropped {
        Some(_) => true,
        None => number <= walk.asked,
    }
}

/// The first event from one on at which something was dropped, if that lies below another.
fn if_below(first: Option<u32>, to: u32) -> Option<u32>
    ensures { (test : ℕ → Bool) (from : ℕ) →
        IsFirstToPass test from (2 ^ 32 - 1) first → IsFirstToPass test from to result }
{
    match first {
        Some(number) => if number < to { first } else { None },
        None => None,
    }
}

/// The later of two moments: up to the first it was asked, and no event was found.
fn later(asked: u32, moment: u32) -> u32
    ensures { (test : ℕ → Bool) (to : ℕ) (first : Option ℕ) →
        IsFirstToPass test moment asked None →
        IsFirstToPass test result to first → IsFirstToPass test moment to first }
{
    if asked < moment { moment } else { asked }
}

/// From which moment on it is left to ask when the translation of a walk had to go.
fn unasked(walk: Lasting) -> u32
    ensures { (test : ℕ → Bool) (to : ℕ) (first : Option ℕ) → let moment = walk.chain.end.moment in
        IsFirstToPass test moment walk.asked walk.dropped →
        IsFirstToPass test result to first → IsFirstToPass test moment to first }
{
    match walk.dropped {
        Some(_) => walk.chain.end.moment,
        None => later(walk.asked, walk.chain.end.moment),
    }
}

/// The first event at which the translation of a walk had to go, of those up to, not with, another.
pub fn asked_up_to(reader: &mut Reader<'_>, p: u16, la: u64, walk: Lasting, to: u32) -> Lasting
    ensures past { reader.new ≡ reader.old }
    ensures chain { result.chain ≡ walk.chain }
    ensures asked { (number : ℕ) → number ≤ to → IsAsked number result }
    ensures lasting { (head : Head) (events : List Event) → IsPast reader.old head events →
        IsLasting head events p la walk → IsLasting head events p la result }
{
    let chain = walk.chain;
    match kind_at(reader.cfg(), chain.end) {
        Kind::Leaf { shift, .. } => {
            let from = unasked(walk);
            let key = translation_key(chain.pcid, shift, walk.global, la);
            let first = reader.first_drop_of_translation(p, key, from);
            Lasting {
                chain,
                global: walk.global,
                asked: to,
                dropped: if_below(first, to),
            }
        }
        Kind::Table { .. } | Kind::Absent | Kind::Reserved => Lasting {
            chain,
            global: walk.global,
            asked: to,
            dropped: None,
        },
    }
}

/// The walk of an access by its moments, and how long its translation lasts, or the least of the
/// reasons `Entry`, `Context` and `StructureDropped`.
#[inline(always)]
pub fn lasting_walk(
    reader: &mut Reader<'_>,
    asking: Asking,
    p: u16,
    la: u64,
    moments: &Moments,
    want: Want,
) -> Result<Lasting, Reason>
    requires { p < processor_count reader.old }
    ensures past { reader.new ≡ reader.old }
    ensures asked { IfOk result (IsAsked asking.number) }
    ensures walk { (head : Head) (events : List Event) → IsPast reader.old head events →
        IsWalk head events p la want moments.now result }
{
    let Asking { number, to } = asking;
    match chain_by(reader, p, la, moments, want) {
        Ok(chain) => {
            let walk = lasting_chain(reader, p, la, chain);
            if is_asked(&walk, number) {
                Ok(walk)
            } else {
                Ok(asked_up_to(reader, p, la, walk, number.max(to)))
            }
        }
        Err(reason) => Err(reason),
    }
}
