//! Which events are shown.

ghost use Rattle.std.specs.Prelude.{◌≡◌, ◌+◌, ◌^◌, ◌<◌, ◌++◌, ℕ, false, length, vec_len};
ghost use Rattle.std.specs.Prelude.{IfOk, OnOk, slice_index_or, string_bytes};
ghost use Rattle.pg_event.specs.Form.{processor_of};
ghost use Rattle.pg_explain.specs.Filters.{is_in_page, names_page, concerns, fits_processor};
ghost use Rattle.pg_explain.specs.Filters.{fits_page, fits_word, fits, shown_line, AreMarks};
ghost use Rattle.pg_explain.specs.Filters.{shown_text, PagesShowTheirDrops};

use crate::line::push_event;
use pg_event::{Event, Selection, bits_from, processor_of};
use pg_search::writes;
use std::alloc::{AllocError, Global};

/// How many processors an event can name.
const PROCESSORS: usize = 65_536;

/// Whether a linear address lies in the page of 4 KB that has another.
fn is_in_page(page: u64, la: u64) -> bool
    ensures { result ≡ is_in_page page la }
{
    bits_from(12, la) == bits_from(12, page)
}

/// Whether an event names an address of a page.
fn names_page(page: u64, event: &Event) -> bool
    ensures { result ≡ names_page page event.now }
{
    match *event {
        Event::Access { la, .. } | Event::Assist { la, .. } | Event::Invlpg { la, .. } => {
            is_in_page(page, la)
        }
        Event::Invpcid { kind, la, .. } => kind == 0 && is_in_page(page, la),
        Event::Write { .. } | Event::MovCr3 { .. } | Event::MovCr4Pge { .. } => false,
    }
}

/// Whether an event has to do with a page, where `is_its` says whether its processor is one of the
/// page's.
fn concerns(page: u64, is_its: bool, event: &Event) -> bool
    ensures { result ≡ concerns page is_its event.now }
{
    match *event {
        Event::Access { la, .. } | Event::Assist { la, .. } | Event::Invlpg { la, .. } => {
            is_in_page(page, la)
        }
        Event::Invpcid { kind, la, .. } => kind != 0 || is_in_page(page, la),
        Event::MovCr3 { .. } | Event::MovCr4Pge { .. } => is_its,
        Event::Write { .. } => false,
    }
}

fn fits_processor(cpu: Option<u16>, event: &Event) -> bool
    ensures { result ≡ fits_processor cpu event.now }
{
    match cpu {
        None => true,
        Some(p) => processor_of(event) == p,
    }
}

fn fits_page(page: Option<u64>, is_its: bool, event: &Event) -> bool
    ensures { result ≡ fits_page page is_its event.now }
{
    match page {
        None => true,
        Some(page) => concerns(page, is_its, event),
    }
}

fn fits_word(word: Option<u64>, event: &Event) -> bool
    ensures { result ≡ fits_word word event.now }
{
    match word {
        None => true,
        Some(word) => writes(word, event),
    }
}

/// Whether an event with this number is shown, where `is_its` says whether its processor is one of
/// the page's.
pub fn fits(selection: Selection, is_its: bool, number: u64, event: &Event) -> bool
    ensures { result ≡ fits selection is_its number event.now }
{
    selection.from as u64 <= number
        && number <= selection.to as u64
        && fits_processor(selection.cpu, event)
        && fits_page(selection.page, is_its && selection.loads, event)
        && fits_word(selection.word, event)
}

/// No mark for any of so many processors.
fn no_marks(alloc: Global, count: usize) -> Result<Vec<bool>, AllocError>
    ensures length { IfOk result (λ marks. vec_len marks ≡ count) }
    ensures none { IfOk result (λ marks. (p : ℕ) → slice_index_or marks.items p false ≡ false) }
{
    vec![in alloc; false; count]
}

/// A mark for each processor that some event names the page on.
fn users(alloc: Global, page: u64, events: &[Event]) -> Result<Vec<bool>, AllocError>
    ensures { IfOk result (λ marks. AreMarks events.now (Some page) marks.items) }
{
    let mut marks = no_marks(alloc, PROCESSORS)?;
    for event in events {
        if names_page(page, event) {
            marks[processor_of(event) as usize] = true;
        }
    }
    Ok(marks)
}

/// A mark for each processor of the page that is asked for, where these are all events of a run.
/// Fails only when out of memory.
pub fn marks_of(alloc: Global, page: Option<u64>, events: &[Event]) -> Result<Vec<bool>, AllocError>
    ensures { IfOk result (λ marks. AreMarks events.now page marks.items) }
{
    match page {
        None => Ok(Vec::new(alloc)),
        Some(page) => users(alloc, page, events),
    }
}

/// Whether a processor has a mark. One that has no place among them has none.
pub fn is_marked(marks: &[bool], p: u16) -> bool
    ensures { result ≡ slice_index_or marks.now p false }
{
    match marks.get(p as usize) {
        None => false,
        Some(mark) => *mark,
    }
}

/// Appends the line of an event, if it is shown.
fn push_shown(
    text: &mut String,
    is_shown: bool,
    number: u64,
    event: &Event,
) -> Result<(), AllocError>
    ensures { OnOk result
        (string_bytes text.new ≡ string_bytes text.old ++ shown_line is_shown number event.now) }
{
    if is_shown {
        push_event(text, number, event)?;
        text.push_str("\n")?;
    }
    Ok(())
}

/// The lines of the events that a selection asks for, in their order, where these are all events of
/// a run. It takes one pass over them, and where a page is asked for another. Fails only when out
/// of memory.
pub fn shown_text(
    alloc: Global,
    selection: Selection,
    events: &[Event],
) -> Result<String, AllocError>
    ensures { IfOk result (λ t. string_bytes t ≡ shown_text selection events.now) }
{
    let marks = marks_of(alloc, selection.page, events)?;
    let mut text = String::new(alloc);
    for (i, event) in events.iter().enumerate() {
        let is_its = is_marked(&marks, processor_of(event));
        let is_shown = fits(selection, is_its, i as u64, event);
        push_shown(&mut text, is_shown, i as u64, event)?;
    }
    Ok(text)
}

/// On the processors of a page, each event is shown with the page by which a translation of it by a
/// page of 4 KB has to go.
pub fn pages_show_their_drops()
    ensures { PagesShowTheirDrops }
{}
