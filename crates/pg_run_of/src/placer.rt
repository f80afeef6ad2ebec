ghost use Rattle.std.specs.Prelude.{◌≡◌, ◌≤◌, ◌<◌, ◌+◌, ◌^◌, ℕ, [], ◌∷◌, ◌++◌, length, IfOk, OnOk};
ghost use Rattle.std.specs.List.Sorted.{IsNonDecreasingBy};
ghost use Rattle.pg_machine.specs.declared.step.Step.TheVariants.{Do};
ghost use Rattle.pg_run_of.specs.declared.fill.Fill.{Fill};
ghost use Rattle.pg_run_of.specs.Plan.{fills_at, steps_from};
ghost use Rattle.pg_run_of.specs.Places.{IsPlace};

use crate::fill::{Fill, step_of};
use pg_event::Event;
use pg_machine::Step;
use std::alloc::{AllocError, Global};

/// Puts fills in the order of their moments; those of one moment keep their order.
pub(crate) fn sort_fills(fills: &mut Vec<Fill>) -> Result<(), AllocError>
    ensures order { OnOk result (IsNonDecreasingBy (λ (f : Fill). f.moment) fills.new.items) }
    ensures same { (w : ℕ) → fills_at w fills.new.items ≡ fills_at w fills.old.items }
{
    fills.sort_by_key(|fill| fill.moment)
}

/// Appends the fills of a moment, which stand from `from` on, and then its event, and gives where
/// the later fills stand.
fn push_moment(
    steps: &mut Vec<Step>,
    fills: &[Fill],
    from: usize,
    moment: u32,
    event: &Event,
) -> Result<usize, AllocError>
    requires order { IsNonDecreasingBy (λ (f : Fill). f.moment) fills.now }
    requires place { IsPlace fills.now moment from }
    ensures steps { OnOk result
        (steps.new.items ≡ steps.old.items ++ (fills_at moment fills.now ++ Do event.now ∷ [])) }
    ensures place { IfOk result (λ next. IsPlace fills.now (moment + 1) next) }
{
    let mut next = from;
    while next < fills.len() && fills[next].moment == moment {
        steps.push(step_of(&fills[next]))?;
        next += 1;
    }
    steps.push(Step::Do(*event))?;
    Ok(next)
}

/// Events in their order, and just before each the fills of its moment.
pub(crate) fn place(
    alloc: Global,
    fills: &[Fill],
    events: &[Event],
) -> Result<Vec<Step>, AllocError>
    requires order { IsNonDecreasingBy (λ (f : Fill). f.moment) fills.now }
    requires count { length events.now < 2 ^ 32 }
    ensures { IfOk result (λ steps. steps.items ≡ steps_from fills.now 0 events.now) }
{
    let mut steps = Vec::new(alloc);
    let mut next = 0;
    for (moment, event) in events.iter().enumerate() {
        next = push_moment(&mut steps, fills, next, moment as u32, event)?;
    }
    Ok(steps)
}
