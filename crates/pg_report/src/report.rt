ghost use Rattle.std.specs.Prelude.{◌≡◌, IfOk, string_bytes};
ghost use Rattle.pg_report.specs.Text.{reason_number, reason_name, counts_text, verdict_text};
ghost use Rattle.pg_report.specs.Text.{report_text, verdict_of};

use pg_event::Reason;
use std::alloc::{AllocError, Global};

/// Whether the moments of a record's accesses prove them all.
#[derive(Clone, Copy, Debug, PartialEq, Eq)]
pub enum Verdict {
    /// They do.
    Yes,
    /// The least event that its moments do not prove, and the least reason that fails.
    No { event: u64, reason: Reason },
}

/// What an audit says of a record.
#[derive(Clone, Copy, PartialEq, Eq)]
pub struct Report {
    /// Yes, or the first bad event.
    pub verdict: Verdict,
    /// How many events the record has.
    pub events: u64,
    /// How many segments it has: events over segment size, rounded up.
    pub segments: u64,
}

pub(crate) fn verdict_of(first_bad: Option<(u64, Reason)>) -> Verdict
    ensures { result ≡ verdict_of first_bad }
{
    match first_bad {
        None => Verdict::Yes,
        Some((event, reason)) => Verdict::No { event, reason },
    }
}

/// The number of a reason, 1 to 13.
pub fn reason_number(reason: Reason) -> u8
    ensures { result ≡ reason_number reason }
{
    match reason {
        Reason::Order => 1,
        Reason::Entry => 2,
        Reason::Context => 3,
        Reason::StructureDropped => 4,
        Reason::TranslationDropped => 5,
        Reason::ForeignPcid => 6,
        Reason::NotAtEvent => 7,
        Reason::Rights => 8,
        Reason::Answer => 9,
        Reason::Code => 10,
        Reason::Accessed => 11,
        Reason::Dirty => 12,
        Reason::Assist => 13,
    }
}

/// The name of a reason.
pub fn reason_name(reason: Reason) -> &'static str
    ensures { result.now ≡ reason_name reason }
{
    match reason {
        Reason::Order => "order",
        Reason::Entry => "entry",
        Reason::Context => "context",
        Reason::StructureDropped => "structure dropped",
        Reason::TranslationDropped => "translation dropped",
        Reason::ForeignPcid => "foreign PCID",
        Reason::NotAtEvent => "absent read not at event",
        Reason::Rights => "rights",
        Reason::Answer => "answer",
        Reason::Code => "code",
        Reason::Accessed => "accessed",
        Reason::Dirty => "dirty",
        Reason::Assist => "assist",
    }
}

fn no_text(alloc: Global, event: u64, reason: Reason) -> Result<String, AllocError>
    ensures { IfOk result (λ t. string_bytes t ≡ verdict_text (Verdict.No event reason)) }
{
    let number = reason_number(reason);
    let name = reason_name(reason);
    format!(in alloc; "verdict: no\nevent: {event}\nreason: {number} {name}\n")
}

fn verdict_text(alloc: Global, verdict: Verdict) -> Result<String, AllocError>
    ensures { IfOk result (λ t. string_bytes t ≡ verdict_text verdict) }
{
    match verdict {
        Verdict::Yes => String::from_str(alloc, "verdict: yes\n"),
        Verdict::No { event, reason } => no_text(alloc, event, reason),
    }
}

fn counts_text(alloc: Global, events: u64, segments: u64) -> Result<String, AllocError>
    ensures { IfOk result (λ t. string_bytes t ≡ counts_text events segments) }
{
    format!(in alloc; "events: {events}\nsegments: {segments}\n")
}

impl Report {
    /// The text of a report: a few lines, each ended by LF, with decimal numbers.
    pub fn text(&self, alloc: Global) -> Result<String, AllocError>
        ensures { IfOk result (λ t. string_bytes t ≡ report_text self.now) }
    {
        let mut text = verdict_text(alloc, self.verdict)?;
        let counts = counts_text(alloc, self.events, self.segments)?;
        text.push_str(counts.as_str())?;
        Ok(text)
    }
}
