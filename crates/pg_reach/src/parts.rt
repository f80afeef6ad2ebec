//! Spans by parts, of which each has those of some PCIDs, so that those of one PCID are among few.

ghost use Rattle.std.specs.Prelude.{◌≡◌, ◌<◌, ◌≤◌, ◌%◌, ◌++◌, [], ℕ, IfOk, OnOk, vec_len};
ghost use Rattle.pg_reach.specs.Stays.{AreInOrder};
ghost use Rattle.pg_reach.specs.Parts.{part_at, own_of, AreParts};

use pg_event::Control;
use pg_timeline::Span;
use std::alloc::{AllocError, Global};

/// So many parts there are, as many as the square root of the number of PCIDs.
const PARTS: usize = 64;

/// Parts with no span.
fn empty_parts(alloc: Global) -> Result<Vec<Vec<Span<Control>>>, AllocError>
    ensures empty { IfOk result (λ parts. (k : ℕ) → part_at parts.items k ≡ []) }
    ensures enough { IfOk result (λ parts. 64 ≤ vec_len parts) }
{
    let mut parts = Vec::new(alloc);
    for _ in 0..PARTS {
        parts.push(Vec::new(alloc))?;
    }
    Ok(parts)
}

/// A span at the end of the part at a place.
fn push_at(
    parts: &mut Vec<Vec<Span<Control>>>,
    place: usize,
    span: Span<Control>,
) -> Result<(), AllocError>
    requires { place < vec_len parts.old }
    ensures spans { OnOk result ((k : ℕ) →
        part_at parts.new.items k ≡ part_at parts.old.items k ++ own_of place k span) }
    ensures count { OnOk result (vec_len parts.new ≡ vec_len parts.old) }
{
    parts[place].push(span)?;
    Ok(())
}

/// The spans by parts.
pub(crate) fn parts_of(
    alloc: Global,
    spans: &[Span<Control>],
) -> Result<Vec<Vec<Span<Control>>>, AllocError>
    requires { AreInOrder spans.now }
    ensures { IfOk result (λ parts. AreParts spans.now parts.items) }
{
    let mut parts = empty_parts(alloc)?;
    for span in spans {
        push_at(&mut parts, span.value.pcid as usize % PARTS, *span)?;
    }
    Ok(parts)
}

/// The spans of the part in which those of a PCID are.
pub(crate) fn part_of(parts: &[Vec<Span<Control>>], pcid: u16) -> &[Span<Control>]
    ensures { result.now ≡ part_at parts.now (pcid % 64) }
{
    match parts.get(pcid as usize % PARTS) {
        Some(part) => part.as_slice(),
        None => &[],
    }
}
