//! Events judged by the past of their run.

ghost use Rattle.std.specs.Prelude.{◌≡◌, ◌+◌, ◌<◌, ◌≤◌, ◌^◌, List, length};
ghost use Rattle.std.specs.List.{AllByRecursion};
ghost use Rattle.pg_event.specs.declared.event.Event.{Event};
ghost use Rattle.pg_event.specs.Form.{processor_of};
ghost use Rattle.pg_event.specs.Heads.{Head};
ghost use Rattle.pg_event.specs.Witness.{failing_event, first_bad_from};
ghost use Rattle.pg_chain.specs.Standing.{IsPast, processor_count};

use crate::access::failing_access;
use crate::assist::failing_assist;
use crate::memo::Memo;
use pg_event::{Claim, Event, Reason, Request, Update, processor_of};

/// The least reason that fails for an event with this number, perhaps with other moments than those
/// that the record names: so moments can be tried. It is judged by the past of a memo, which keeps
/// walks that the next ones may share.
pub fn failing(memo: &mut Memo<'_>, number: u32, event: &Event) -> Option<Reason>
    requires { processor_of event.now < processor_count memo.old }
    ensures past { memo.new ≡ memo.old }
    ensures failing { (head : Head) (events : List Event) → IsPast memo.old head events →
        result ≡ failing_event head events number event.now }
{
    let p = processor_of(event);
    match event.request() {
        Request::Nothing => None,
        Request::Access {
            kind,
            la,
            outcome,
            moments,
        } => {
            let claim = Claim {
                number,
                p,
                kind,
                la,
                outcome,
            };
            failing_access(memo, &claim, &moments)
        }
        Request::Update {
            kind,
            la,
            word,
            dirty,
            moments,
        } => {
            let update = Update {
                number,
                p,
                kind,
                la,
                word,
                dirty,
            };
            failing_assist(memo, &update, &moments)
        }
    }
}

/// The least of some events that is not witnessed, where the first of them has this number.
pub(crate) fn first_bad_of(
    memo: &mut Memo<'_>,
    first: u64,
    events: &[Event],
) -> Option<(u64, Reason)>
    requires processors { AllByRecursion
        (λ e. processor_of e < processor_count memo.old) events.now }
    requires count { first + length events.now ≤ 2 ^ 32 }
    ensures past { memo.new ≡ memo.old }
    ensures first { (head : Head) (all : List Event) → IsPast memo.old head all →
        result ≡ first_bad_from head all first events.now }
{
    for (i, event) in events.iter().enumerate() {
        let number = first + i as u64;
        if let Some(reason) = failing(memo, number as u32, event) {
            return Some((number, reason));
        }
    }
    None
}
