//! Where everything of a picture stands.

ghost use Rattle.std.specs.Prelude.{◌≡◌, ◌+◌, ◌<◌, ◌≤◌, ◌^◌, ◌++◌, length, IfOk, OnOk};
ghost use Rattle.std.specs.List.{list_any};
ghost use Rattle.pg_explain.specs.Text.{numbered_text, finding_text, entry_text};
ghost use Rattle.pg_show_picture.specs.Layout.{takes_part, lanes, lane_x, role_of};
ghost use Rattle.pg_show_picture.specs.Layout.{event_box, event_boxes, entry_boxes, write_arrow};
ghost use Rattle.pg_show_picture.specs.Layout.{drop_arrow, arrows_to, arrows, is_long, has_long};
ghost use Rattle.pg_show_picture.specs.Layout.{letters, IsLaid, IsLayout};

use crate::named::{drawn, dropper_of, is_dropper, is_taker, named};
use crate::rows::{entry_top, event_top, height};
use pg_check::History;
use pg_event::Event;
use pg_explain::{
    Explanation, Finding, WalkEntry, processor_at, push_entry, push_finding, push_numbered,
};
use std::alloc::{AllocError, Global};

/// What an event is to the bad one.
#[derive(Clone, Copy)]
pub enum Role {
    /// It is the bad event.
    Bad,
    /// An entry that the bad event reads had to go by it.
    Drops,
    /// No moments prove the bad event after it.
    Takes,
    /// It wrote an entry that the bad event reads.
    Writes,
}

/// The lane of a processor. All places are in pixels, x to the right and y down.
#[derive(Clone, Copy)]
pub struct Lane {
    pub processor: u16,
    pub x: u64,
}

/// The box of an event, and its dot in a lane.
#[derive(Clone, Copy)]
pub struct EventBox {
    pub number: u32,
    /// Where its lane is.
    pub x: u64,
    /// The top of its row.
    pub y: u64,
    pub role: Role,
}

/// The box of an entry of the walk.
#[derive(Clone, Copy)]
pub struct EntryBox {
    pub entry: WalkEntry,
    /// The top of its row.
    pub y: u64,
}

/// What an event did to an entry.
#[derive(Clone, Copy)]
pub enum Deed {
    /// It wrote it.
    Writes,
    /// It had it dropped.
    Drops,
}

/// An arrow from the box of an event to that of an entry.
#[derive(Clone, Copy)]
pub struct Arrow {
    /// How far down it begins.
    pub from: u64,
    /// Where it goes up or down.
    pub x: u64,
    /// How far down it ends.
    pub to: u64,
    pub deed: Deed,
}

/// Where everything of a picture stands, which is 1,200 wide.
#[derive(Drop)]
pub struct Layout {
    /// The size of letters.
    pub letters: u64,
    pub height: u64,
    /// From left to right, by rising processors.
    pub lanes: Vec<Lane>,
    /// By rising numbers.
    pub events: Vec<EventBox>,
    /// From level 4 down.
    pub entries: Vec<EntryBox>,
    pub arrows: Vec<Arrow>,
}

/// Whether one of the events with these numbers is of a processor.
fn takes_part(events: &[Event], numbers: &[u32], processor: u16) -> bool
    ensures { result ≡ takes_part events.now numbers.now processor }
{
    for number in numbers {
        if processor_at(events, *number) == processor {
            return true;
        }
    }
    false
}

/// A lane for each processor that takes part.
fn lanes(alloc: Global, history: &History, numbers: &[u32]) -> Result<Vec<Lane>, AllocError>
    ensures { IfOk result (λ found. found.items
        ≡ lanes history.now.head history.now.events numbers.now) }
{
    let mut found = Vec::new(alloc);
    let mut x = 24;
    for (i, _start) in history.header().processors.iter().enumerate() {
        let processor = i as u16;
        if takes_part(history.events(), numbers, processor) {
            found.push(Lane { processor, x })?;
            x += 18;
        }
    }
    Ok(found)
}

/// Where the lane of a processor is.
fn lane_x(lanes: &[Lane], processor: u16) -> u64
    ensures { result ≡ lane_x lanes.now processor }
{
    for lane in lanes {
        if lane.processor == processor {
            return lane.x;
        }
    }
    24
}

fn role_of(explanation: &Explanation, number: u32) -> Role
    ensures { result ≡ role_of explanation.now number }
{
    if number == explanation.number {
        Role::Bad
    } else if is_dropper(explanation, number) {
        Role::Drops
    } else if is_taker(explanation, number) {
        Role::Takes
    } else {
        Role::Writes
    }
}

/// The box of each event.
fn event_boxes(
    alloc: Global,
    events: &[Event],
    explanation: &Explanation,
    walk: &[WalkEntry],
    numbers: &[u32],
    lanes: &[Lane],
) -> Result<Vec<EventBox>, AllocError>
    requires numbers { length numbers.now < 2 ^ 32 }
    requires walk { length walk.now ≤ 4 }
    ensures { IfOk result (λ found. found.items
        ≡ event_boxes events.now explanation.now walk.now numbers.now lanes.now) }
{
    let mut found = Vec::new(alloc);
    for number in numbers {
        found.push(EventBox {
            number: *number,
            x: lane_x(lanes, processor_at(events, *number)),
            y: event_top(numbers, walk, *number),
            role: role_of(explanation, *number),
        })?;
    }
    Ok(found)
}

/// The box of each entry.
fn entry_boxes(
    alloc: Global,
    walk: &[WalkEntry],
    numbers: &[u32],
) -> Result<Vec<EntryBox>, AllocError>
    requires numbers { length numbers.now < 2 ^ 32 }
    requires walk { length walk.now ≤ 4 }
    ensures { IfOk result (λ found. found.items ≡ entry_boxes numbers.now walk.now) }
{
    let mut found = Vec::new(alloc);
    for (i, entry) in walk.iter().enumerate() {
        found.push(EntryBox {
            entry: *entry,
            y: entry_top(numbers, walk, i, entry.step.moment),
        })?;
    }
    Ok(found)
}

/// Adds the arrow from the event that wrote an entry, if there is one, to the row of the entry.
fn push_write(
    found: &mut Vec<Arrow>,
    numbers: &[u32],
    walk: &[WalkEntry],
    x: u64,
    top: u64,
    writer: Option<u32>,
) -> Result<(), AllocError>
    requires numbers { length numbers.now < 2 ^ 32 }
    requires walk { length walk.now ≤ 4 }
    requires top { top < 2 ^ 50 }
    ensures { OnOk result (found.new.items
        ≡ found.old.items ++ write_arrow numbers.now walk.now x top writer) }
{
    match writer {
        None => Ok(()),
        Some(number) => {
            found.push(Arrow {
                from: event_top(numbers, walk, number) + 17,
                x,
                to: top + 8,
                deed: Deed::Writes,
            })?;
            Ok(())
        }
    }
}

/// Adds the arrow from the event by which an entry had to go, if there is one, to the row of the
/// entry.
fn push_drop(
    found: &mut Vec<Arrow>,
    numbers: &[u32],
    walk: &[WalkEntry],
    top: u64,
    at: Option<u32>,
) -> Result<(), AllocError>
    requires numbers { length numbers.now < 2 ^ 32 }
    requires walk { length walk.now ≤ 4 }
    requires top { top < 2 ^ 50 }
    ensures { OnOk result (found.new.items
        ≡ found.old.items ++ drop_arrow numbers.now walk.now top at) }
{
    match at {
        None => Ok(()),
        Some(number) => {
            found.push(Arrow {
                from: event_top(numbers, walk, number) + 12,
                x: 200,
                to: top + 17,
                deed: Deed::Drops,
            })?;
            Ok(())
        }
    }
}

/// Adds the arrows to the entry at a place of the walk.
fn push_arrows(
    found: &mut Vec<Arrow>,
    finding: Finding,
    numbers: &[u32],
    walk: &[WalkEntry],
    place: usize,
    entry: WalkEntry,
) -> Result<(), AllocError>
    requires numbers { length numbers.now < 2 ^ 32 }
    requires walk { length walk.now ≤ 4 }
    requires place { place < length walk.now }
    ensures { OnOk result (found.new.items
        ≡ found.old.items ++ arrows_to finding numbers.now walk.now place entry) }
{
    let top = entry_top(numbers, walk, place, entry.step.moment);
    let x = 164 + 9 * place as u64;
    push_write(found, numbers, walk, x, top, entry.writer)?;
    push_drop(
        found,
        numbers,
        walk,
        top,
        dropper_of(entry.step.level, finding),
    )
}

/// The arrows to all entries.
fn arrows(
    alloc: Global,
    finding: Finding,
    numbers: &[u32],
    walk: &[WalkEntry],
) -> Result<Vec<Arrow>, AllocError>
    requires numbers { length numbers.now < 2 ^ 32 }
    requires walk { length walk.now ≤ 4 }
    ensures { IfOk result (λ found. found.items ≡ arrows finding numbers.now walk.now) }
{
    let mut found = Vec::new(alloc);
    for (i, entry) in walk.iter().enumerate() {
        push_arrows(&mut found, finding, numbers, walk, i, *entry)?;
    }
    Ok(found)
}

/// How many letters of size 14 fit into a box, of a monospaced font with letters of 0.602 times
/// their size.
const LARGE: usize = 112;

/// How many of size 12 do.
const MIDDLE: usize = 132;

/// How many more fit into the line of what was found, which begins further left.
const OUTDENT: usize = 28;

/// Whether a line has more letters than this.
fn is_long(line: &str, most: usize) -> bool
    ensures { result ≡ is_long most line.now }
{
    line.len() > most
}

fn is_long_finding(
    alloc: Global,
    events: &[Event],
    finding: Finding,
    most: usize,
) -> Result<bool, AllocError>
    ensures { IfOk result (λ found. found ≡ is_long most (finding_text events.now finding)) }
{
    let mut line = String::new(alloc);
    push_finding(&mut line, events, finding)?;
    Ok(is_long(line.as_str(), most))
}

fn is_long_event(
    alloc: Global,
    events: &[Event],
    number: u32,
    most: usize,
) -> Result<bool, AllocError>
    ensures { IfOk result (λ found. found ≡ is_long most (numbered_text events.now number)) }
{
    let mut line = String::new(alloc);
    push_numbered(&mut line, events, number)?;
    Ok(is_long(line.as_str(), most))
}

fn is_long_entry(alloc: Global, entry: &WalkEntry, most: usize) -> Result<bool, AllocError>
    ensures { IfOk result (λ found. found ≡ is_long most (entry_text entry.now)) }
{
    let mut line = String::new(alloc);
    push_entry(&mut line, entry)?;
    Ok(is_long(line.as_str(), most))
}

/// Whether the line of one of the events with these numbers is long.
fn has_long_event(
    alloc: Global,
    events: &[Event],
    numbers: &[u32],
    most: usize,
) -> Result<bool, AllocError>
    ensures { IfOk result (λ found. found
        ≡ list_any (λ j. is_long most (numbered_text events.now j)) numbers.now) }
{
    for number in numbers {
        if is_long_event(alloc, events, *number, most)? {
            return Ok(true);
        }
    }
    Ok(false)
}

/// Whether the line of one of these entries is long.
fn has_long_entry(alloc: Global, walk: &[WalkEntry], most: usize) -> Result<bool, AllocError>
    ensures { IfOk result (λ found. found
        ≡ list_any (λ e. is_long most (entry_text e)) walk.now) }
{
    for entry in walk {
        if is_long_entry(alloc, entry, most)? {
            return Ok(true);
        }
    }
    Ok(false)
}

/// Whether some line has more letters than there is room for, where so many fit into a box.
fn has_long(
    alloc: Global,
    events: &[Event],
    explanation: &Explanation,
    walk: &[WalkEntry],
    numbers: &[u32],
    most: usize,
) -> Result<bool, AllocError>
    requires { most ≤ 132 }
    ensures { IfOk result (λ found. found
        ≡ has_long most events.now explanation.now walk.now numbers.now) }
{
    if is_long_finding(alloc, events, explanation.finding, most + OUTDENT)? {
        return Ok(true);
    }
    if has_long_event(alloc, events, numbers, most)? {
        return Ok(true);
    }
    has_long_entry(alloc, walk, most)
}

/// The size of letters.
fn letters(
    alloc: Global,
    events: &[Event],
    explanation: &Explanation,
    walk: &[WalkEntry],
    numbers: &[u32],
) -> Result<u64, AllocError>
    ensures { IfOk result (λ size. size
        ≡ letters events.now explanation.now walk.now numbers.now) }
{
    if has_long(alloc, events, explanation, walk, numbers, MIDDLE)? {
        return Ok(10);
    }
    if has_long(alloc, events, explanation, walk, numbers, LARGE)? {
        Ok(12)
    } else {
        Ok(14)
    }
}

/// Where everything stands, where these are the entries that are drawn and the numbers of the
/// events.
fn laid(
    alloc: Global,
    history: &History,
    explanation: &Explanation,
    walk: &[WalkEntry],
    numbers: &[u32],
) -> Result<Layout, AllocError>
    requires numbers { length numbers.now < 2 ^ 32 }
    requires walk { length walk.now ≤ 4 }
    ensures { IfOk result (IsLaid history.now.head history.now.events explanation.now walk.now
        numbers.now) }
{
    let events = history.events();
    let lanes = lanes(alloc, history, numbers)?;
    Ok(Layout {
        letters: letters(alloc, events, explanation, walk, numbers)?,
        height: height(numbers, walk),
        events: event_boxes(alloc, events, explanation, walk, numbers, &lanes)?,
        entries: entry_boxes(alloc, walk, numbers)?,
        arrows: arrows(alloc, explanation.finding, numbers, walk)?,
        lanes,
    })
}

/// Where everything of an explanation stands. It takes one pass over the events. Fails only when
/// out of memory.
pub fn lay_out(
    alloc: Global,
    history: &History,
    explanation: &Explanation,
) -> Result<Layout, AllocError>
    ensures { IfOk result (IsLayout history.now.head history.now.events explanation.now) }
{
    let walk = drawn(&explanation.walk);
    let numbers = named(alloc, explanation, walk, history.events())?;
    laid(alloc, history, explanation, walk, &numbers)
}
