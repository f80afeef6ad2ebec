//! Fields of events are within the widths that they have in a record. Each function does nothing:
//! its contract is the fact.

ghost use Rattle.std.specs.Prelude.{◌<◌, ◌^◌};
ghost use Rattle.std.specs.List.{AllByRecursion};
ghost use Rattle.pg_event.specs.Spelling.{AreMoments, FitsOutcome, FitsEvent};

use pg_event::{Event, Moments, Outcome};

fn byte_fits(value: u8)
    ensures { value < 2 ^ 8 }
{
    let _value = value;
}

fn short_fits(value: u16)
    ensures { value < 2 ^ 16 }
{
    let _value = value;
}

fn long_fits(value: u64)
    ensures { value < 2 ^ 64 }
{
    let _value = value;
}

fn numbers_fit(moments: &[u32])
    ensures { AllByRecursion (λ w. w < 2 ^ 32) moments.now }
{
    let _count = moments.len();
}

fn moments_fit(moments: Moments)
    ensures { AreMoments moments }
{
    numbers_fit(moments.as_slice());
}

fn outcome_fits(outcome: Outcome)
    ensures { FitsOutcome outcome }
{
    match outcome {
        Outcome::Page(page) => long_fits(page),
        Outcome::Fault(code) => short_fits(code),
    }
}

/// The fields of an event fit those of a record.
pub(crate) fn event_fits(event: &Event)
    ensures { FitsEvent event.now }
{
    match *event {
        Event::Write { addr, value, .. } => {
            long_fits(addr);
            long_fits(value);
        }
        Event::Access {
            flags,
            la,
            outcome,
            moments,
            ..
        } => {
            byte_fits(flags);
            long_fits(la);
            outcome_fits(outcome);
            moments_fit(moments);
        }
        Event::Assist {
            flags,
            la,
            word,
            moments,
            ..
        } => {
            byte_fits(flags);
            long_fits(la);
            long_fits(word);
            moments_fit(moments);
        }
        Event::MovCr3 { operand, .. } => long_fits(operand),
        Event::Invlpg { la, .. } => long_fits(la),
        Event::Invpcid { kind, pcid, la, .. } => {
            byte_fits(kind);
            short_fits(pcid);
            long_fits(la);
        }
        Event::MovCr4Pge { .. } => {}
    }
}
