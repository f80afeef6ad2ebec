//! Why no moments witness an event.

ghost use Rattle.std.specs.Prelude.{◌≡◌, ◌<◌, ◌≤◌, true, ◌∷◌, [], length, IfOk, IfSome, slice_get};
ghost use Rattle.std.specs.Prelude.{None};
ghost use Rattle.pg_event.specs.Form.{broken_rule, processor_of};
ghost use Rattle.pg_search.specs.Law.{names_moments};
ghost use Rattle.pg_explain.specs.Denied.{IsDenialFor, IsDenialOf, IsWalkNow};
ghost use Rattle.pg_explain.specs.Denied.{DenialsAmongKept};
ghost use Rattle.pg_explain.specs.Given.{given_by, given_now};
ghost use Rattle.pg_explain.specs.Findings.{readings_by};
ghost use Rattle.pg_explain.specs.Walk.{IsWalk};

use crate::entry::{WalkEntry, read_steps, tell};
use crate::finding::Finding;
use crate::given::given_by;
use crate::lacking::lacking_now;
use crate::translation_drop::drop_for;
use pg_check::History;
use pg_entry::AccessKind;
use pg_event::{Event, Outcome, Request, processor_of};
use pg_reach::last_moments_at;
use pg_search::{Last, Seen, witnessed_among_kept};
use std::alloc::{AllocError, Global};

/// Why no moments witness an event.
#[derive(Drop)]
pub struct Denial {
    /// The number of the event.
    pub number: u32,
    /// The entries that its processor would read at the event, from level 4 down. What stands below
    /// an entry that is no table was read as if it were one.
    pub walk: Vec<WalkEntry>,
    /// What its access would get by these, by the rights alone.
    pub given: Option<Outcome>,
    /// What its access lacks in these, where they would give what it got but for accessed and dirty
    /// flags.
    pub lacking: Option<Finding>,
    /// When the event would last have been witnessed, had it come earlier, and by which moments.
    pub last: Option<Last>,
    /// The event that had to drop the translation which its access would have used then, where that
    /// was one and no longer stands. It is the event of `last`, or one behind it.
    pub dropped: Option<u32>,
}

/// What a processor would read at an event, and get.
#[derive(Drop)]
struct Now {
    walk: Vec<WalkEntry>,
    given: Option<Outcome>,
}

/// What processor `p` would read at an event for an access of a kind to a linear address, and get.
fn walk_of(
    alloc: Global,
    seen: &Seen<'_>,
    p: u16,
    kind: AccessKind,
    la: u64,
    number: u32,
) -> Result<Now, AllocError>
    requires { p < length seen.now.head.processors }
    ensures walk { IfOk result (λ now. IsWalk seen.now.head seen.now.events p la
        (number ∷ number ∷ number ∷ number ∷ []) now.walk.items) }
    ensures given { IfOk result (λ now. now.given
        ≡ given_by seen.now.head.cfg kind la (readings_by seen.now.head seen.now.events p
        la (number ∷ number ∷ number ∷ number ∷ []))) }
{
    let steps = read_steps(alloc, seen, p, la, &[number; 4])?;
    let given = given_by(seen.header().cfg, kind, la, &steps);
    let walk = tell(alloc, seen, &None, p, &steps)?;
    Ok(Now { walk, given })
}

/// What an event's processor would read at the event, where it reads anything, and get.
fn walk_now(alloc: Global, seen: &Seen<'_>, number: u32, event: &Event) -> Result<Now, AllocError>
    requires { processor_of event.now < length seen.now.head.processors }
    ensures walk { IfOk result (λ now. IsWalkNow seen.now.head seen.now.events number
        event.now now.walk.items) }
    ensures given { IfOk result (λ now. now.given
        ≡ given_now seen.now.head seen.now.events number event.now) }
{
    match event.request() {
        Request::Access { kind, la, .. } | Request::Update { kind, la, .. } => {
            walk_of(alloc, seen, processor_of(event), kind, la, number)
        }
        Request::Nothing => Ok(Now {
            walk: Vec::new(alloc),
            given: None,
        }),
    }
}

/// Why no moments witness an access or an assist as the event with this number, which need not be
/// one of those that are seen: what its processor would read at this number, what that would give,
/// when the event would last have been witnessed, and what dropped its translation.
///
/// It asks the past, as `last_moments_at` of `pg_reach` does. It fails only where memory is
/// refused.
pub fn deny_event(
    alloc: Global,
    seen: &Seen<'_>,
    number: u32,
    event: &Event,
) -> Result<Denial, AllocError>
    requires within { number ≤ length seen.now.events }
    requires well { broken_rule seen.now.head event.now ≡ None }
    requires names { names_moments event.now ≡ true }
    ensures { IfOk result (IsDenialFor seen.now.head seen.now.events number event.now) }
{
    let last = last_moments_at(alloc, seen, number, event)?;
    let dropped = drop_for(alloc, seen, number, event, &last)?;
    let lacking = lacking_now(alloc, seen, number, event)?;
    let Now { walk, given } = walk_now(alloc, seen, number, event)?;
    Ok(Denial {
        number,
        walk,
        given,
        lacking,
        last,
        dropped,
    })
}

/// Why no moments witness the event with this number of a history (`deny_event`).
pub fn deny(alloc: Global, history: &History, number: u64) -> Result<Denial, AllocError>
    requires within { number < length history.now.events }
    requires names { IfSome (slice_get history.now.events number) (λ e. names_moments e ≡ true) }
    ensures { IfOk result (IsDenialOf history.now.head history.now.events number) }
{
    let event = &history.events()[number as usize];
    deny_event(alloc, &Seen::of(history), number as u32, event)
}

/// What is kept of the events before an event tells why no moments witness it. The function does
/// nothing: its contract is the law.
pub fn denials_among_kept()
    ensures { DenialsAmongKept }
{
    witnessed_among_kept();
}
