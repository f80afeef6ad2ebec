//! A cause, drawn: the events that it names, and its lines.

ghost use Rattle.std.specs.Prelude.{◌≡◌, ◌++◌, ◌<◌, ◌≤◌, ◌==◌, min, IfOk, OnOk, length};
ghost use Rattle.std.specs.Prelude.{string_bytes, slice_get};
ghost use Rattle.pg_span_text.specs.Picture.{put_lane, lane_with, lanes_of, place_below};
ghost use Rattle.pg_span_text.specs.Picture.{fill_of};
ghost use Rattle.pg_span_text.specs.Picture.{frame_text, title_text, paper_text, open_text};
ghost use Rattle.pg_span_text.specs.Picture.{lane_at, lane_name, lane_line, lanes_text};
ghost use Rattle.pg_span_text.specs.Picture.{bar_at, bar_line, label_at, label_line, row_lines};
ghost use Rattle.pg_span_text.specs.Picture.{rows_text, drawn_text, picture_text, lines_of};
ghost use Rattle.pg_span_text.specs.Picture.{shown_byte, shown_bytes, below_at, below_text};

use crate::cause::cause_text;
use crate::lines::push_began;
use crate::named::named;
use pg_event::{Event, processor_of};
use pg_span_run::{SpannedRun, ended_before, event_of};
use std::alloc::{AllocError, Global};

/// So many rows and lanes are drawn.
const MOST: u64 = 40;
/// There is room for so many lines of a cause.
const MOST_LINES: u64 = 120;

/// Puts a processor after others, unless it is there.
fn put_lane(lanes: &mut Vec<u32>, p: u32) -> Result<(), AllocError>
    ensures { OnOk result (lanes.new.items ≡ put_lane lanes.old.items p) }
{
    if !lanes.contains(&p) {
        lanes.push(p)?;
    }
    Ok(())
}

/// Puts the processor of an event, given by its number, after others, unless it is there.
fn put_lane_with(lanes: &mut Vec<u32>, run: &SpannedRun, number: u32) -> Result<(), AllocError>
    ensures { OnOk result (lanes.new.items ≡ lane_with run.now lanes.old.items number) }
{
    match run.event_at(number) {
        None => Ok(()),
        Some(event) => put_lane(lanes, processor_of(event) as u32),
    }
}

/// The processors of these events.
fn lanes_of(alloc: Global, run: &SpannedRun, names: &[u32]) -> Result<Vec<u32>, AllocError>
    ensures { IfOk result (λ lanes. lanes.items ≡ lanes_of run.now names.now) }
{
    let mut lanes = Vec::new(alloc);
    for name in names {
        put_lane_with(&mut lanes, run, *name)?;
    }
    Ok(lanes)
}

/// How many of these are below a number: which row or lane it has.
fn place_below(numbers: &[u32], bound: u32) -> u64
    ensures place { result ≡ place_below numbers.now bound }
    ensures few { result ≤ 40 }
{
    let below = numbers.iter().filter(|number| **number < bound).count();
    (below as u64).min(MOST)
}

/// How many rows or lanes there are.
fn count_of(numbers: &[u32]) -> u64
    ensures count { result ≡ min (length numbers.now) 40 }
    ensures few { result ≤ 40 }
{
    (numbers.len() as u64).min(MOST)
}

/// How many lines a text has.
fn lines_of(text: &str) -> u64
    ensures lines { result ≡ lines_of text.now }
    ensures few { result ≤ 120 }
{
    let bytes = text.as_bytes();
    let lines = bytes.iter().filter(|byte| **byte == b'\n').count();
    (lines as u64).min(MOST_LINES)
}

/// The colour of an event's bar.
fn fill_of(is_asked: bool) -> &'static str
    ensures { result.now ≡ fill_of is_asked }
{
    if is_asked { "#c22" } else { "#1f5fa8" }
}

#[tactic(auto, unfolding(crate::specs::Picture::frame_text))]
fn push_frame(text: &mut String, width: u64, height: u64) -> Result<(), AllocError>
    ensures { OnOk result
        (string_bytes text.new ≡ string_bytes text.old ++ frame_text width height) }
{
    writeln!(
        text,
        "<svg xmlns='http://www.w3.org/2000/svg' viewBox='0 0 {width} {height}' width='{width}' \
            height='{height}' style='max-width:100%;height:auto' font-family='monospace' \
            font-size='14'>"
    )
}

#[tactic(auto, unfolding(crate::specs::Picture::title_text))]
fn push_title(text: &mut String, number: u32) -> Result<(), AllocError>
    ensures { OnOk result (string_bytes text.new ≡ string_bytes text.old ++ title_text number) }
{
    writeln!(text, "<title>event {number}</title>")
}

#[tactic(auto, unfolding(crate::specs::Picture::paper_text))]
fn push_paper(text: &mut String, width: u64, height: u64) -> Result<(), AllocError>
    ensures { OnOk result
        (string_bytes text.new ≡ string_bytes text.old ++ paper_text width height) }
{
    writeln!(
        text,
        "<rect width='{width}' height='{height}' fill='#fff'/>"
    )
}

/// Appends how the picture of an event begins.
fn push_open(
    text: &mut String,
    number: u32,
    lanes: u64,
    rows: u64,
    lines: u64,
) -> Result<(), AllocError>
    requires { (lanes ≤ 40) × (rows ≤ 40) × (lines ≤ 120) }
    ensures { OnOk result
        (string_bytes text.new ≡ string_bytes text.old ++ open_text number lanes rows lines) }
{
    let width = 24 * lanes + 1056;
    let height = 24 * rows + (16 * lines + 76);
    push_frame(text, width, height)?;
    push_title(text, number)?;
    push_paper(text, width, height)
}

#[tactic(auto, unfolding(crate::specs::Picture::lane_at))]
fn push_lane_at(text: &mut String, x: u64, height: u64) -> Result<(), AllocError>
    ensures { OnOk result (string_bytes text.new ≡ string_bytes text.old ++ lane_at x height) }
{
    writeln!(
        text,
        "<path d='M{x} 44V{height}' stroke-width='2' stroke='#bbb'/>"
    )
}

#[tactic(auto, unfolding(crate::specs::Picture::lane_name))]
fn push_lane_name(text: &mut String, x: u64, p: u32) -> Result<(), AllocError>
    ensures { OnOk result (string_bytes text.new ≡ string_bytes text.old ++ lane_name x p) }
{
    writeln!(
        text,
        "<text fill='#555' font-size='11' transform='translate({x} 40) rotate(-45)'>cpu {p}</text>"
    )
}

/// Appends the lane of a processor.
fn push_lane(text: &mut String, place: u64, p: u32, rows: u64) -> Result<(), AllocError>
    requires { (place ≤ 40) × (rows ≤ 40) }
    ensures { OnOk result
        (string_bytes text.new ≡ string_bytes text.old ++ lane_line place p rows) }
{
    push_lane_at(text, 24 * place + 18, 24 * rows + 60)?;
    push_lane_name(text, 24 * place + 18, p)
}

/// Appends the lanes of processors.
fn push_lanes(text: &mut String, lanes: &[u32], rows: u64) -> Result<(), AllocError>
    requires { rows ≤ 40 }
    ensures { OnOk result
        (string_bytes text.new ≡ string_bytes text.old ++ lanes_text lanes.now rows lanes.now) }
{
    for lane in lanes {
        push_lane(text, place_below(lanes, *lane), *lane, rows)?;
    }
    Ok(())
}

#[tactic(auto, unfolding(crate::specs::Picture::bar_at))]
fn push_bar_at(text: &mut String, x: u64, y: u64, height: u64, fill: &str) -> Result<(), AllocError>
    ensures { OnOk result
        (string_bytes text.new ≡ string_bytes text.old ++ bar_at x y height fill.now) }
{
    writeln!(
        text,
        "<rect x='{x}' y='{y}' width='12' height='{height}' fill='{fill}'/>"
    )
}

/// Appends the bar of an event in its lane, from one row to another.
fn push_bar(text: &mut String, lane: u64, from: u64, to: u64, fill: &str) -> Result<(), AllocError>
    requires { (lane ≤ 40) × (from ≤ 40) × (to ≤ 40) }
    ensures { OnOk result
        (string_bytes text.new ≡ string_bytes text.old ++ bar_line lane from to fill.now) }
{
    let height = 24 * to.saturating_sub(from) + 18;
    push_bar_at(text, 24 * lane + 12, 24 * from + 48, height, fill)
}

#[tactic(auto, unfolding(crate::specs::Picture::label_at))]
fn push_label_at(text: &mut String, x: u64, y: u64, fill: &str) -> Result<(), AllocError>
    ensures { OnOk result
        (string_bytes text.new ≡ string_bytes text.old ++ label_at x y fill.now) }
{
    write!(text, "<text x='{x}' y='{y}' fill='{fill}'>")
}

/// Appends the label of an event in its row.
fn push_label(
    text: &mut String,
    place: (u64, u64),
    fill: &str,
    number: u32,
    began: u32,
    event: &Event,
) -> Result<(), AllocError>
    requires { (place.0 ≤ 40) × (place.1 ≤ 40) }
    ensures { OnOk result (string_bytes text.new ≡ string_bytes text.old
        ++ label_line place.0 place.1 fill.now number began event.now) }
{
    push_label_at(text, 24 * place.0 + 24, 24 * place.1 + 62, fill)?;
    push_began(text, number, began, event)?;
    text.push_str("</text>\n")
}

/// Appends the bar and the label of an event.
fn push_event(
    text: &mut String,
    run: &SpannedRun,
    names: &[u32],
    lanes: &[u32],
    number: u32,
    fill: &str,
) -> Result<(), AllocError>
    requires { number < length run.now.events }
    ensures { OnOk result (string_bytes text.new ≡ string_bytes text.old
        ++ row_lines run.now names.now lanes.now number fill.now
        (slice_get run.now.events number)) }
{
    let event = event_of(run, number);
    let began = ended_before(run, number);
    let lane = place_below(lanes, processor_of(event) as u32);
    let row = place_below(names, number);
    push_bar(text, lane, place_below(names, began), row, fill)?;
    push_label(text, (count_of(lanes), row), fill, number, began, event)
}

/// Appends the bar and the label of the event with this number, if there is one.
fn push_row(
    text: &mut String,
    run: &SpannedRun,
    names: &[u32],
    lanes: &[u32],
    number: u32,
    fill: &str,
) -> Result<(), AllocError>
    ensures { OnOk result (string_bytes text.new ≡ string_bytes text.old
        ++ row_lines run.now names.now lanes.now number fill.now
        (slice_get run.now.events number)) }
{
    if (number as usize) < run.len() {
        push_event(text, run, names, lanes, number, fill)?;
    }
    Ok(())
}

/// Appends the bars and the labels of events.
fn push_rows(
    text: &mut String,
    run: &SpannedRun,
    names: &[u32],
    lanes: &[u32],
    asked: u32,
) -> Result<(), AllocError>
    ensures { OnOk result (string_bytes text.new ≡ string_bytes text.old
        ++ rows_text run.now names.now lanes.now asked names.now) }
{
    for name in names {
        push_row(text, run, names, lanes, *name, fill_of(*name == asked))?;
    }
    Ok(())
}

/// Appends a byte of a text, where XML gives it no meaning; a line's end begins a new line.
fn push_byte(text: &mut String, byte: u8) -> Result<(), AllocError>
    ensures { OnOk result (string_bytes text.new ≡ string_bytes text.old ++ shown_byte byte) }
{
    match byte {
        b'\n' => text.push_str("</tspan>\n<tspan x='12' dy='16'>"),
        b'<' => text.push_str("&lt;"),
        b'>' => text.push_str("&gt;"),
        b'&' => text.push_str("&amp;"),
        0..=127 => text.push(byte as char),
        _ => text.push_str("?"),
    }
}

/// Appends a text, line by line.
fn push_bytes(text: &mut String, shown: &str) -> Result<(), AllocError>
    ensures { OnOk result
        (string_bytes text.new ≡ string_bytes text.old ++ shown_bytes shown.now) }
{
    for byte in shown.as_bytes() {
        push_byte(text, *byte)?;
    }
    Ok(())
}

#[tactic(auto, unfolding(crate::specs::Picture::below_at))]
fn push_below_at(text: &mut String, y: u64) -> Result<(), AllocError>
    ensures { OnOk result (string_bytes text.new ≡ string_bytes text.old ++ below_at y) }
{
    write!(
        text,
        "<text font-size='12' y='{y}'>\n<tspan x='12' dy='16'>"
    )
}

/// Appends a text below so many rows.
fn push_below(text: &mut String, rows: u64, shown: &str) -> Result<(), AllocError>
    requires { rows ≤ 40 }
    ensures { OnOk result
        (string_bytes text.new ≡ string_bytes text.old ++ below_text rows shown.now) }
{
    push_below_at(text, 24 * rows + 60)?;
    push_bytes(text, shown)?;
    text.push_str("</tspan>\n</text>\n")
}

/// Appends the picture of these events.
fn push_drawn(
    alloc: Global,
    text: &mut String,
    run: &SpannedRun,
    asked: u32,
    names: &[u32],
) -> Result<(), AllocError>
    ensures { OnOk result (string_bytes text.new
        ≡ string_bytes text.old ++ drawn_text run.now asked names.now) }
{
    let lanes = lanes_of(alloc, run, names)?;
    let cause = cause_text(alloc, run, asked as u64)?;
    let rows = count_of(names);
    push_open(
        text,
        asked,
        count_of(&lanes),
        rows,
        lines_of(cause.as_str()),
    )?;
    push_lanes(text, &lanes, rows)?;
    push_rows(text, run, names, &lanes, asked)?;
    push_below(text, rows, cause.as_str())?;
    text.push_str("</svg>\n")
}

/// The cause of an event (`cause_text`) as one SVG: the events that it names, 40 at most, and below
/// them its lines. Time runs downwards; each event has a row, by its number, and a bar in the lane
/// of its processor, from the row where it may have begun to its own. The asked event is red.
/// Nothing for a number that no event has. It fails only where memory is refused.
pub fn cause_picture(alloc: Global, run: &SpannedRun, number: u64) -> Result<String, AllocError>
    ensures { IfOk result (λ t. string_bytes t ≡ picture_text run.now number) }
{
    let mut text = String::new(alloc);
    if number < run.len() as u64 {
        let number = number as u32;
        let names = named(alloc, run, number)?;
        push_drawn(alloc, &mut text, run, number, &names)?;
    }
    Ok(text)
}
