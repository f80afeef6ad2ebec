//! The text of a picture.

ghost use Rattle.std.specs.Prelude.{◌≡◌, ◌++◌, IfOk, OnOk, string_bytes};
ghost use Rattle.pg_show_picture.specs.Svg.{open_text, markers_text, paper_text, title_text};
ghost use Rattle.pg_show_picture.specs.Svg.{finding_line, seen_text, taken_text, cause_lines};
ghost use Rattle.pg_show_picture.specs.Svg.{lines_text, lanes_text};
ghost use Rattle.pg_show_picture.specs.Svg.{event_box_text, event_boxes_text, entry_box_text};
ghost use Rattle.pg_show_picture.specs.Svg.{entry_boxes_text, arrows_text, head_text, lanes_of};
ghost use Rattle.pg_show_picture.specs.Svg.{things_text, svg_text, IsPicture};

use crate::placer::{Arrow, EntryBox, EventBox, Lane, Layout, lay_out};
use crate::shapes::{
    ENTRY_STYLE, push_arrow, push_escaped, push_keys, push_lane, push_marker, push_placed,
    push_row, push_walk_lane, style_of,
};
use pg_check::History;
use pg_event::{Event, Moments};
use pg_explain::{
    Explanation, deed_name, push_entry, push_finding, push_last, push_last_moments, push_numbered,
};
use pg_search::Last;
use std::alloc::{AllocError, Global};

/// Appends how an SVG begins.
fn push_open(text: &mut String, height: u64, letters: u64) -> Result<(), AllocError>
    ensures { OnOk result
        (string_bytes text.new ≡ string_bytes text.old ++ open_text height letters) }
{
    writeln!(
        text,
        "<svg xmlns='http://www.w3.org/2000/svg' viewBox='0 0 1200 {height}' width='1200' \
            height='{height}' style='max-width:100%;height:auto' font-family='monospace' \
            font-size='{letters}'>"
    )
}

fn push_title(text: &mut String, number: u32) -> Result<(), AllocError>
    ensures { OnOk result
        (string_bytes text.new ≡ string_bytes text.old ++ title_text number) }
{
    writeln!(text, "<title>event {number}</title>")
}

fn push_markers(text: &mut String) -> Result<(), AllocError>
    ensures { OnOk result (string_bytes text.new ≡ string_bytes text.old ++ markers_text) }
{
    text.push_str("<defs>\n")?;
    push_marker(text, "writes", "#1f5fa8")?;
    push_marker(text, "drops", "#c22")?;
    text.push_str("</defs>\n")
}

fn push_paper(text: &mut String, height: u64) -> Result<(), AllocError>
    ensures { OnOk result
        (string_bytes text.new ≡ string_bytes text.old ++ paper_text height) }
{
    writeln!(text, "<rect width='1200' height='{height}' fill='#fff'/>")
}

/// Appends what was found for the reason.
fn push_finding_line(text: &mut String, finding: &str) -> Result<(), AllocError>
    ensures { OnOk result
        (string_bytes text.new ≡ string_bytes text.old ++ finding_line finding.now) }
{
    text.push_str("<text x='10' y='24' font-weight='bold'>")?;
    push_escaped(text, finding)?;
    text.push_str("</text>\n")
}

fn push_last_seen(text: &mut String, last: &Last) -> Result<(), AllocError>
    ensures { OnOk result
        (string_bytes text.new ≡ string_bytes text.old ++ seen_text last.now) }
{
    let number = last.number;
    push_last_moments(text, last)?;
    write!(text, "; taken by event {number}")
}

/// Appends when the event would last have been witnessed, where no moments prove it.
fn push_taken(
    text: &mut String,
    other: Option<Moments>,
    last: Option<Last>,
) -> Result<(), AllocError>
    ensures { OnOk result
        (string_bytes text.new ≡ string_bytes text.old ++ taken_text other last) }
{
    match (other, last) {
        (None, None) => text.push_str("last: never"),
        (None, Some(last)) => push_last_seen(text, &last),
        (Some(_), _) => Ok(()),
    }
}

/// Appends the lines of the cause.
fn push_cause_lines(
    alloc: Global,
    text: &mut String,
    events: &[Event],
    explanation: &Explanation,
) -> Result<(), AllocError>
    ensures { OnOk result (string_bytes text.new
        ≡ string_bytes text.old ++ cause_lines events.now explanation.now) }
{
    let mut finding = String::new(alloc);
    push_finding(&mut finding, events, explanation.finding)?;
    push_finding_line(text, finding.as_str())?;
    let mut other = String::new(alloc);
    let deed = deed_name(events, explanation.number);
    push_last(&mut other, deed, explanation.other)?;
    push_placed(text, 10, 44, other.as_str())?;
    let mut taken = String::new(alloc);
    push_taken(&mut taken, explanation.other, explanation.last)?;
    push_placed(text, 10, 62, taken.as_str())
}

/// Appends the lines above the lanes.
fn push_lines(
    alloc: Global,
    text: &mut String,
    events: &[Event],
    explanation: &Explanation,
    note: &str,
) -> Result<(), AllocError>
    ensures { OnOk result (string_bytes text.new
        ≡ string_bytes text.old ++ lines_text events.now explanation.now note.now) }
{
    push_cause_lines(alloc, text, events, explanation)?;
    push_placed(text, 10, 80, note)
}

fn push_lanes(text: &mut String, foot: u64, lanes: &[Lane]) -> Result<(), AllocError>
    ensures { OnOk result
        (string_bytes text.new ≡ string_bytes text.old ++ lanes_text foot lanes.now) }
{
    for lane in lanes {
        push_lane(text, foot, *lane)?;
    }
    Ok(())
}

fn push_event_box(
    alloc: Global,
    text: &mut String,
    events: &[Event],
    drawn: EventBox,
) -> Result<(), AllocError>
    ensures { OnOk result (string_bytes text.new
        ≡ string_bytes text.old ++ event_box_text events.now drawn) }
{
    let EventBox { number, x, y, role } = drawn;
    let mut line = String::new(alloc);
    push_numbered(&mut line, events, number)?;
    push_row(text, style_of(role), x, y, 0)?;
    push_placed(text, 224, 16, line.as_str())?;
    text.push_str("</g>\n")
}

fn push_event_boxes(
    alloc: Global,
    text: &mut String,
    events: &[Event],
    boxes: &[EventBox],
) -> Result<(), AllocError>
    ensures { OnOk result (string_bytes text.new
        ≡ string_bytes text.old ++ event_boxes_text events.now boxes.now) }
{
    for drawn in boxes {
        push_event_box(alloc, text, events, *drawn)?;
    }
    Ok(())
}

fn push_entry_box(alloc: Global, text: &mut String, drawn: &EntryBox) -> Result<(), AllocError>
    ensures { OnOk result (string_bytes text.new
        ≡ string_bytes text.old ++ entry_box_text drawn.now) }
{
    let mut line = String::new(alloc);
    push_entry(&mut line, &drawn.entry)?;
    push_row(text, ENTRY_STYLE, 148, drawn.y, 12)?;
    push_placed(text, 232, 16, line.as_str())?;
    text.push_str("</g>\n")
}

fn push_entry_boxes(alloc: Global, text: &mut String, boxes: &[EntryBox]) -> Result<(), AllocError>
    ensures { OnOk result (string_bytes text.new
        ≡ string_bytes text.old ++ entry_boxes_text boxes.now) }
{
    for drawn in boxes {
        push_entry_box(alloc, text, drawn)?;
    }
    Ok(())
}

fn push_all_arrows(text: &mut String, arrows: &[Arrow]) -> Result<(), AllocError>
    ensures { OnOk result
        (string_bytes text.new ≡ string_bytes text.old ++ arrows_text arrows.now) }
{
    for arrow in arrows {
        push_arrow(text, *arrow)?;
    }
    Ok(())
}

/// Appends what stands above the rows, and the paper.
fn push_head(
    alloc: Global,
    text: &mut String,
    events: &[Event],
    explanation: &Explanation,
    note: &str,
    layout: &Layout,
) -> Result<(), AllocError>
    ensures { OnOk result (string_bytes text.new
        ≡ string_bytes text.old ++ head_text events.now explanation.now note.now layout.now) }
{
    push_open(text, layout.height, layout.letters)?;
    push_title(text, explanation.number)?;
    push_markers(text)?;
    push_paper(text, layout.height)?;
    push_lines(alloc, text, events, explanation, note)
}

fn push_all_lanes(text: &mut String, layout: &Layout) -> Result<(), AllocError>
    ensures { OnOk result
        (string_bytes text.new ≡ string_bytes text.old ++ lanes_of layout.now) }
{
    push_lanes(text, layout.height, &layout.lanes)?;
    push_walk_lane(text, layout.height)
}

/// Appends the boxes and the arrows.
fn push_things(
    alloc: Global,
    text: &mut String,
    events: &[Event],
    layout: &Layout,
) -> Result<(), AllocError>
    ensures { OnOk result (string_bytes text.new
        ≡ string_bytes text.old ++ things_text events.now layout.now) }
{
    push_event_boxes(alloc, text, events, &layout.events)?;
    push_entry_boxes(alloc, text, &layout.entries)?;
    push_all_arrows(text, &layout.arrows)
}

/// The text of a picture of an explanation, by where everything stands.
fn svg_text(
    alloc: Global,
    events: &[Event],
    explanation: &Explanation,
    note: &str,
    layout: &Layout,
) -> Result<String, AllocError>
    ensures { IfOk result (λ t. string_bytes t
        ≡ svg_text events.now explanation.now note.now layout.now) }
{
    let mut text = String::new(alloc);
    push_head(alloc, &mut text, events, explanation, note, layout)?;
    push_all_lanes(&mut text, layout)?;
    push_keys(&mut text)?;
    push_things(alloc, &mut text, events, layout)?;
    text.push_str("</svg>\n")?;
    Ok(text)
}

/// An explanation as a picture: one SVG, 1,200 pixels wide, without scripts. It shows each event
/// that the explanation names, in the lane of its processor, the entries of the walk at their
/// moments, and which event wrote or dropped which entry. A note stands in a line of its own above
/// them. It takes one pass over the events. Fails only when out of memory.
pub fn picture_text(
    alloc: Global,
    history: &History,
    explanation: &Explanation,
    note: &str,
) -> Result<String, AllocError>
    ensures { IfOk result (λ t. IsPicture history.now.head history.now.events explanation.now
        note.now (string_bytes t)) }
{
    let layout = lay_out(alloc, history, explanation)?;
    svg_text(alloc, history.events(), explanation, note, &layout)
}
