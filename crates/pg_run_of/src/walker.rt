ghost use Rattle.std.specs.Prelude.{◌≡◌, ◌≤◌, ◌<◌, ◌+◌, ◌*◌, ◌^◌, ◌++◌, length, IfOk, OnOk};
ghost use Rattle.pg_event.specs.Form.{processor_of};
ghost use Rattle.pg_run_of.specs.Plan.{fills_from, root_at, moments_fills, event_fills, fills_of};

use crate::fill::Fill;
use crate::visit::{Visit, descend, next_address};
use pg_check::History;
use pg_entry::Level;
use pg_event::{Event, Moments, Request, Want, processor_of, root_of, uses_last, want_of};
use std::alloc::{AllocError, Global};

/// MAXPHYADDR.
fn width_of(history: &History) -> u8
    ensures width { result ≡ history.now.head.cfg.m }
    ensures within { (36 ≤ result) × (result ≤ 52) }
{
    history.header().cfg.m
}

/// The walk of processor `p` for a linear address from the root that it has at a moment.
fn first_visit(history: &History, p: u16, la: u64, moment: u32) -> Visit
    requires { p < length history.now.head.processors }
    ensures address { (result.p ≡ p) × (result.la ≡ la) }
    ensures level { result.level ≡ Level.Four }
    ensures from { result.from ≡ root_at history.now.head history.now.events p moment }
    ensures within { result.from.table < 2 ^ 52 }
{
    Visit {
        p,
        la,
        level: Level::Four,
        from: root_of(history.control_at(p, moment)),
    }
}

/// Appends the fills of a walk by moments, each at the moment of its reading.
fn push_walk(
    fills: &mut Vec<Fill>,
    history: &History,
    visit: Visit,
    want: Want,
    moments: &[u32],
) -> Result<(), AllocError>
    requires within { visit.from.table < 2 ^ 52 }
    ensures fills { OnOk result (fills.new.items ≡ fills.old.items
        ++ fills_from history.now.head history.now.events want visit moments.now) }
    ensures few { OnOk result
        (length fills.new.items ≤ length fills.old.items + length moments.now) }
{
    let Some((moment, rest)) = moments.split_first() else {
        return Ok(())
    };
    if rest.is_empty() {
        if uses_last(want) {
            fills.push(Fill {
                moment: *moment,
                visit,
                is_leaf: true,
            })?;
        }
        return Ok(());
    }
    let value = history.value_at(*moment, next_address(visit));
    fills.push(Fill {
        moment: *moment,
        visit,
        is_leaf: false,
    })?;
    let next = descend(width_of(history), visit, value);
    push_walk(fills, history, next, want, rest)
}

/// Appends the fills of a walk of processor `p` from the root that it has at the first moment.
fn push_moments(
    fills: &mut Vec<Fill>,
    history: &History,
    p: u16,
    la: u64,
    want: Want,
    moments: &Moments,
) -> Result<(), AllocError>
    requires processor { p < length history.now.head.processors }
    ensures fills { OnOk result (fills.new.items ≡ fills.old.items
        ++ moments_fills history.now.head history.now.events want p la moments.now) }
    ensures few { OnOk result (length fills.new.items ≤ length fills.old.items + 4) }
{
    let moments = moments.as_slice();
    let visit = first_visit(history, p, la, moments[0]);
    push_walk(fills, history, visit, want, moments)
}

/// Appends the fills of an event. Only an access and an assist have some.
fn push_fills(fills: &mut Vec<Fill>, history: &History, event: &Event) -> Result<(), AllocError>
    requires processor { processor_of event.now < length history.now.head.processors }
    ensures fills { OnOk result (fills.new.items ≡ fills.old.items
        ++ event_fills history.now.head history.now.events event.now) }
    ensures few { OnOk result (length fills.new.items ≤ length fills.old.items + 4) }
{
    let p = processor_of(event);
    match event.request() {
        Request::Nothing => Ok(()),
        Request::Access {
            la,
            outcome,
            moments,
            ..
        } => push_moments(fills, history, p, la, want_of(outcome), &moments),
        Request::Update { la, moments, .. } => {
            push_moments(fills, history, p, la, Want::Present, &moments)
        }
    }
}

/// The fills of all events, in the order of the events.
pub(crate) fn fills_of(alloc: Global, history: &History) -> Result<Vec<Fill>, AllocError>
    ensures fills { IfOk result
        (λ fills. fills.items ≡ fills_of history.now.head history.now.events) }
    ensures few { IfOk result (λ fills. length fills.items ≤ 4 * length history.now.events) }
{
    let mut fills = Vec::new(alloc);
    for event in history.events() {
        push_fills(&mut fills, history, event)?;
    }
    Ok(fills)
}
