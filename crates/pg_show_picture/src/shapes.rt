//! The parts of a picture, as text.

ghost use Rattle.std.specs.Prelude.{◌≡◌, ◌++◌, OnOk, string_bytes};
ghost use Rattle.pg_show_picture.specs.Svg.{escape, escaped, place_text, placed_text, marker_text};
ghost use Rattle.pg_show_picture.specs.Svg.{line_text, label_text, lane_text, walk_lane_text};
ghost use Rattle.pg_show_picture.specs.Svg.{style_of, row_text, key_text, made_keys, taken_keys};
ghost use Rattle.pg_show_picture.specs.Svg.{keys_text, pen_of, arrow_text};

use crate::placer::{Arrow, Deed, Lane, Role};
use std::alloc::AllocError;

/// Appends a byte of a text, where XML gives it no meaning.
fn push_byte(text: &mut String, byte: u8) -> Result<(), AllocError>
    ensures { OnOk result (string_bytes text.new ≡ string_bytes text.old ++ escape byte) }
{
    match byte {
        b'<' => text.push_str("&lt;"),
        b'>' => text.push_str("&gt;"),
        b'&' => text.push_str("&amp;"),
        b'"' => text.push_str("&quot;"),
        b'\'' => text.push_str("&#39;"),
        0..=127 => text.push(byte as char),
        _ => text.push_str("?"),
    }
}

/// Appends a text, where XML gives its bytes no meaning.
pub(crate) fn push_escaped(text: &mut String, line: &str) -> Result<(), AllocError>
    ensures { OnOk result
        (string_bytes text.new ≡ string_bytes text.old ++ escaped line.now) }
{
    for byte in line.as_bytes() {
        push_byte(text, *byte)?;
    }
    Ok(())
}

/// Appends a line at a place.
pub(crate) fn push_placed(text: &mut String, x: u64, y: u64, line: &str) -> Result<(), AllocError>
    ensures { OnOk result
        (string_bytes text.new ≡ string_bytes text.old ++ placed_text x y line.now) }
{
    write!(text, "<text x='{x}' y='{y}'>")?;
    push_escaped(text, line)?;
    text.push_str("</text>\n")
}

/// Appends the head of an arrow, in a colour, under a name.
pub(crate) fn push_marker(text: &mut String, name: &str, colour: &str) -> Result<(), AllocError>
    ensures { OnOk result
        (string_bytes text.new ≡ string_bytes text.old ++ marker_text name.now colour.now) }
{
    writeln!(
        text,
        "<marker id='{name}' viewBox='0 0 8 8' refX='8' refY='4' orient='auto' markerWidth='8' \
            markerHeight='8' markerUnits='userSpaceOnUse'><path fill='{colour}' \
            d='M0 0L8 4L0 8z'/></marker>"
    )
}

/// Appends a line from the lanes' names down to the foot, in a colour.
fn push_line(text: &mut String, x: u64, foot: u64, colour: &str) -> Result<(), AllocError>
    ensures { OnOk result
        (string_bytes text.new ≡ string_bytes text.old ++ line_text x foot colour.now) }
{
    write!(
        text,
        "<path d='M{x} 114V{foot}' stroke-width='2' stroke='{colour}'/>"
    )
}

/// Appends the beginning of a lane's name.
fn push_label(text: &mut String, x: u64) -> Result<(), AllocError>
    ensures { OnOk result (string_bytes text.new ≡ string_bytes text.old ++ label_text x) }
{
    write!(
        text,
        "<text fill='#555' font-size='11' transform='translate({x} 110) rotate(-45)'>"
    )
}

/// Appends the lane of a processor, down to the foot.
pub(crate) fn push_lane(text: &mut String, foot: u64, lane: Lane) -> Result<(), AllocError>
    ensures { OnOk result
        (string_bytes text.new ≡ string_bytes text.old ++ lane_text foot lane) }
{
    let Lane { processor, x } = lane;
    push_line(text, x, foot, "#bbb")?;
    push_label(text, x)?;
    writeln!(text, "cpu {processor}</text>")
}

/// Appends the lane of the walk.
pub(crate) fn push_walk_lane(text: &mut String, foot: u64) -> Result<(), AllocError>
    ensures { OnOk result
        (string_bytes text.new ≡ string_bytes text.old ++ walk_lane_text foot) }
{
    push_line(text, 148, foot, "#7a5")?;
    push_label(text, 148)?;
    text.push_str("walk</text>\n")
}

pub(crate) fn style_of(role: Role) -> &'static str
    ensures { result.now ≡ style_of role }
{
    match role {
        Role::Bad => "fill='#fde8e8' stroke='#c22' stroke-width='2'",
        Role::Drops => "fill='#fff3dc' stroke='#c80'",
        Role::Takes => "fill='#f3ecfa' stroke='#7a4fa3'",
        Role::Writes => "fill='#eef3fa' stroke='#1f5fa8'",
    }
}

pub(crate) const ENTRY_STYLE: &str = "fill='#eef7e8' stroke='#7a5'";

/// Appends what a style of boxes means.
fn push_key(text: &mut String, x: u64, style: &str, meaning: &str) -> Result<(), AllocError>
    ensures { OnOk result (string_bytes text.new
        ≡ string_bytes text.old ++ key_text x style.now meaning.now) }
{
    writeln!(
        text,
        "<g transform='translate({x} 98)'><rect width='12' height='12' {style}/>\
            <text x='18' y='10' font-size='11'>{meaning}</text></g>"
    )
}

fn push_made_keys(text: &mut String) -> Result<(), AllocError>
    ensures { OnOk result (string_bytes text.new ≡ string_bytes text.old ++ made_keys) }
{
    push_key(text, 216, style_of(Role::Writes), "wrote an entry")?;
    push_key(text, 345, ENTRY_STYLE, "an entry, at its moment")
}

fn push_taken_keys(text: &mut String) -> Result<(), AllocError>
    ensures { OnOk result (string_bytes text.new ≡ string_bytes text.old ++ taken_keys) }
{
    push_key(text, 535, style_of(Role::Drops), "an entry had to go by it")?;
    push_key(text, 732, style_of(Role::Takes), "took the last moments")?;
    push_key(text, 909, style_of(Role::Bad), "the bad event")
}

/// Appends what the colours of boxes mean.
pub(crate) fn push_keys(text: &mut String) -> Result<(), AllocError>
    ensures { OnOk result (string_bytes text.new ≡ string_bytes text.old ++ keys_text) }
{
    push_made_keys(text)?;
    push_taken_keys(text)
}

/// Appends what begins a row: its box, whose corners are round by so much, and a dot in a lane.
pub(crate) fn push_row(
    text: &mut String,
    style: &str,
    x: u64,
    y: u64,
    round: u64,
) -> Result<(), AllocError>
    ensures { OnOk result
        (string_bytes text.new ≡ string_bytes text.old ++ row_text style.now x y round) }
{
    writeln!(
        text,
        "<g transform='translate(0 {y})'><g {style}><path d='M{x} 12H216'/><circle r='5' cy='12' \
            cx='{x}'/><rect x='216' width='976' height='24' rx='{round}'/></g>"
    )
}

fn pen_of(deed: Deed) -> &'static str
    ensures { result.now ≡ pen_of deed }
{
    match deed {
        Deed::Writes => "stroke='#1f5fa8' marker-end='url(#writes)'",
        Deed::Drops => "stroke='#c22' stroke-dasharray='6 3' marker-end='url(#drops)'",
    }
}

pub(crate) fn push_arrow(text: &mut String, arrow: Arrow) -> Result<(), AllocError>
    ensures { OnOk result
        (string_bytes text.new ≡ string_bytes text.old ++ arrow_text arrow) }
{
    let Arrow { from, x, to, deed } = arrow;
    let pen = pen_of(deed);
    writeln!(
        text,
        "<path fill='none' stroke-width='2' {pen} d='M216 {from}H{x}V{to}H216'/>"
    )
}
