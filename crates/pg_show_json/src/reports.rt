//! Reports as JSON.

ghost use Rattle.std.specs.Prelude.{◌≡◌, OnOk};
ghost use Rattle.serde_json.specs.View.{members_view};
ghost use Rattle.pg_show_json.specs.Tree.{members_of, Fields as Told};
ghost use Rattle.pg_show_json.specs.Reports.{with_counts, with_yes, with_no};
ghost use Rattle.pg_show_json.specs.Reports.{with_verdict, with_report};

use crate::fields::{Fields, put_count, put_text};
use pg_report::{Report, Verdict, reason_name, reason_number};
use std::alloc::{AllocError, Global};

/// Puts how many events and segments there are.
pub fn put_counts(
    fields: &mut Fields,
    alloc: Global,
    events: u64,
    segments: u64,
) -> Result<(), AllocError>
    ensures { (others : Told) → members_view fields.old.entries ≡ members_of others →
        OnOk result (members_view fields.new.entries
        ≡ members_of (with_counts events segments others)) }
{
    put_count(fields, alloc, "segments", segments)?;
    put_count(fields, alloc, "events", events)
}

/// Puts a yes.
pub fn put_yes(fields: &mut Fields, alloc: Global) -> Result<(), AllocError>
    ensures { (others : Told) → members_view fields.old.entries ≡ members_of others →
        OnOk result (members_view fields.new.entries ≡ members_of (with_yes others)) }
{
    put_text(fields, alloc, "verdict", "yes")
}

/// Puts a no at an event, for the reason with this number and this name.
pub fn put_no(
    fields: &mut Fields,
    alloc: Global,
    event: u64,
    number: u8,
    name: &str,
) -> Result<(), AllocError>
    ensures { (others : Told) → members_view fields.old.entries ≡ members_of others →
        OnOk result (members_view fields.new.entries
        ≡ members_of (with_no event number name.now others)) }
{
    put_text(fields, alloc, "reason_name", name)?;
    put_count(fields, alloc, "reason", number as u64)?;
    put_count(fields, alloc, "event", event)?;
    put_text(fields, alloc, "verdict", "no")
}

fn put_verdict(fields: &mut Fields, alloc: Global, verdict: Verdict) -> Result<(), AllocError>
    ensures { (others : Told) → members_view fields.old.entries ≡ members_of others →
        OnOk result (members_view fields.new.entries ≡ members_of (with_verdict verdict others)) }
{
    match verdict {
        Verdict::Yes => put_yes(fields, alloc),
        Verdict::No { event, reason } => put_no(
            fields,
            alloc,
            event,
            reason_number(reason),
            reason_name(reason),
        ),
    }
}

/// Puts what a report says.
pub fn put_report(fields: &mut Fields, alloc: Global, report: Report) -> Result<(), AllocError>
    ensures { (others : Told) → members_view fields.old.entries ≡ members_of others →
        OnOk result (members_view fields.new.entries ≡ members_of (with_report report others)) }
{
    put_counts(fields, alloc, report.events, report.segments)?;
    put_verdict(fields, alloc, report.verdict)
}
