//! The event that had to drop the translation which an access would last have used.

ghost use Rattle.std.specs.Prelude.{◌≡◌, ◌<◌, length, IfOk};
ghost use Rattle.pg_entry.specs.Kinds.{kind_of};
ghost use Rattle.pg_event.specs.Form.{processor_of};
ghost use Rattle.pg_chain.specs.Walked.{reading_of};
ghost use Rattle.pg_explain.specs.TranslationDrops.{IsDropBy, IsDropAfter, IsDropFor};

use crate::entry::{last_step, read_steps};
use pg_chain::{EntryRead, kind_at};
use pg_entry::Kind;
use pg_event::{Event, Moments};
use pg_search::{Last, Lookup, Seen};
use std::alloc::{AllocError, Global};

/// The first event below a number that had to drop the translation of what was read under a PCID.
fn drop_by(seen: &Seen<'_>, number: u32, p: u16, la: u64, pcid: u16, step: EntryRead) -> Option<u32>
    requires { p < length seen.now.head.processors }
    ensures { IsDropBy seen.now.head seen.now.events number p la pcid (reading_of step)
        (kind_of seen.now.head.cfg step.level step.value) result }
{
    let kind = kind_at(seen.header().cfg, step);
    let Kind::Leaf {
        shift,
        global_bit,
        ..
    } = kind
    else {
        return None;
    };
    let global = seen.is_global(p, global_bit, step.moment);
    let lookup = Lookup { p, pcid, la };
    let end = seen.translation_end(lookup, shift, global, step.moment);
    if end < number { Some(end) } else { None }
}

/// The first event below a number that had to drop the translation which some moments make.
fn drop_after(
    alloc: Global,
    seen: &Seen<'_>,
    number: u32,
    p: u16,
    la: u64,
    moments: &Moments,
) -> Result<Option<u32>, AllocError>
    requires { p < length seen.now.head.processors }
    ensures { IfOk result
        (IsDropAfter seen.now.head seen.now.events number p la moments.now) }
{
    let moments = moments.as_slice();
    let pcid = seen.control_at(p, moments[0]).pcid;
    let steps = read_steps(alloc, seen, p, la, moments)?;
    Ok(drop_by(seen, number, p, la, pcid, last_step(&steps)))
}

/// The event below an access's number that had to drop the translation which it would have used
/// when it would last have been witnessed, where that was one.
pub(crate) fn drop_for(
    alloc: Global,
    seen: &Seen<'_>,
    number: u32,
    event: &Event,
    last: &Option<Last>,
) -> Result<Option<u32>, AllocError>
    requires { processor_of event.now < length seen.now.head.processors }
    ensures { IfOk result
        (IsDropFor seen.now.head seen.now.events number event.now last.now) }
{
    let Some(last) = last else {
        return Ok(None);
    };
    match *event {
        Event::Access { p, la, .. } => drop_after(alloc, seen, number, p, la, &last.moments),
        Event::Write { .. }
        | Event::Assist { .. }
        | Event::MovCr3 { .. }
        | Event::Invlpg { .. }
        | Event::Invpcid { .. }
        | Event::MovCr4Pge { .. } => Ok(None),
    }
}
