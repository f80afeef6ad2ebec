//! A record that was judged, as a trace.

ghost use Rattle.std.specs.Prelude.{◌≡◌, ◌<◌, None, length, IfOk, IfSome, IfNone};
ghost use Rattle.pg_event.specs.Witness.{Witnessed};
ghost use Rattle.pg_report.specs.Changes.{filled};
ghost use Rattle.pg_certify.specs.Certified.{CanBeCertified, IsDenied};
ghost use Rattle.pg_show_trace.specs.Given.{WritesPart, WritesTrace};
ghost use Rattle.pg_show_trace.specs.Judged.{IsCertifiedTrace, IsExplainedTrace, IsDenialMark};
ghost use Rattle.pg_show_trace.specs.Judged.{IsBadMark, IsMarkOf, traced_of};
ghost use Rattle.pg_show_trace.specs.Marks.{said};
ghost use Rattle.pg_show_trace.specs.Texts.{marking, trace_text};

use crate::mark::{Mark, denial_mark, explanation_mark};
use crate::writer::{Scene, write_history};
use pg_certify::{CertifyError, first_denied_by};
use pg_check::History;
use pg_codec::Sink;
use pg_explain::{deny, explain};
use pg_report::{AuditError, Verdict, report_of};
use std::alloc::{AllocError, AllocGlobal, Global};
use std::sync::Wait;
use std::thread::Threads;

/// Whether a record that was written is accepted.
#[derive(Clone, Copy, Debug, PartialEq, Eq)]
pub enum Traced {
    Accepted,
    Rejected,
}

fn traced_of(mark: &Option<Mark>) -> Traced
    ensures { result ≡ traced_of (marking mark.now) }
{
    match mark {
        None => Traced::Accepted,
        Some(_) => Traced::Rejected,
    }
}

/// Writes a record, with the mark of the rejected event where there is one.
fn write_marked<O: Sink>(
    alloc: Global,
    history: &History,
    mark: Option<Mark>,
    output: &mut O,
) -> Result<Traced, AuditError>
    ensures text { WritesPart (trace_text None (marking mark) history.now)
        (filled O.Sink output.old output.new) result }
    ensures told { IfOk result (λ t. t ≡ traced_of (marking mark)) }
{
    let traced = traced_of(&mark);
    let scene = Scene {
        selection: None,
        mark,
    };
    match write_history(alloc, &scene, history, output) {
        Ok(()) => Ok(traced),
        Err(error) => Err(error),
    }
}

/// The mark of the event that is denied, where one is.
fn denied_mark(
    alloc: Global,
    history: &History,
    denied: Option<u64>,
) -> Result<Option<Mark>, AllocError>
    requires denied { IfSome denied (IsDenied history.now.head history.now.events) }
    requires certified { IfNone denied (CanBeCertified history.now.head history.now.events) }
    ensures { IfOk result (λ m. IsDenialMark history.now (marking m)) }
{
    match denied {
        None => Ok(None),
        Some(number) => {
            let denial = deny(alloc, history, number)?;
            Ok(Some(denial_mark(alloc, history, &denial)?))
        }
    }
}

/// Has so many checkers certify a record, and writes its trace, with the mark of the event that is
/// denied. Nothing is written before that is known.
pub fn trace_certified<T: AllocGlobal + Threads + Wait + Sync, O: Sink>(
    rt: &T,
    checkers: u32,
    history: &History,
    output: &mut O,
) -> Result<Traced, AuditError>
    requires { 0 < checkers }
    ensures { WritesTrace (IsCertifiedTrace history.now) checkers
        (filled O.Sink output.old output.new) result }
{
    let denied = match first_denied_by(rt, rt.alloc(), history, checkers) {
        Ok(denied) => denied,
        Err(CertifyError::Memory) => return Err(AuditError::Memory),
        Err(CertifyError::Thread) => return Err(AuditError::Thread),
    };
    let mark = denied_mark(rt.alloc(), history, denied)?;
    write_marked(rt.alloc(), history, mark, output)
}

/// The mark of an event that its moments do not witness.
fn mark_of(alloc: Global, history: &History, number: u64) -> Result<Mark, AllocError>
    requires within { number < length history.now.events }
    requires bad { ¬ Witnessed history.now.head history.now.events number }
    ensures { IfOk result (λ m. IsMarkOf history.now number (said m)) }
{
    match explain(alloc, history, number)? {
        Some(explanation) => {
            let mark = explanation_mark(alloc, history, &explanation)?;
            Ok(mark)
        }
        None => unreachable!(),
    }
}

/// The mark of the first event that its moments do not witness, where there is one.
fn bad_mark(alloc: Global, history: &History) -> Result<Option<Mark>, AllocError>
    ensures { IfOk result (λ m. IsBadMark history.now (marking m)) }
{
    match report_of(history).verdict {
        Verdict::Yes => Ok(None),
        Verdict::No { event, .. } => Ok(Some(mark_of(alloc, history, event)?)),
    }
}

/// Judges a record by its moments, and writes its trace, with the mark of the first bad event.
pub fn trace_explained<O: Sink>(
    alloc: Global,
    history: &History,
    output: &mut O,
) -> Result<Traced, AuditError>
    ensures { WritesTrace (IsExplainedTrace history.now) 1
        (filled O.Sink output.old output.new) result }
{
    let mark = bad_mark(alloc, history)?;
    write_marked(alloc, history, mark, output)
}
