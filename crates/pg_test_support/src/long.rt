//! Records of long runs on four processors.

ghost use Rattle.std.specs.Prelude.{◌≤◌};

use std::alloc::{AllocError, Global};

/// The settings but for the segment size.
const SETTINGS: [u8; 13] = [
    0x50, 0x47, 0x52, 0x45, 0x43, 0x4f, 0x52, 0x44, 1, 0, 40, 3, 4,
];

/// Four processors whose PML4 table is at 0x1000.
const PROCESSORS: [u8; 36] = [
    0x01, 0x10, 0, 0, 0, 0, 0, 0, 1, 0x02, 0x10, 0, 0, 0, 0, 0, 0, 1, //
    0x03, 0x10, 0, 0, 0, 0, 0, 0, 1, 0x04, 0x10, 0, 0, 0, 0, 0, 0, 1,
];

/// Pages whose entries are written: linear page i at physical page 9 + i.
const PAGES: u32 = 13;

/// Writes that the run begins with: three tables above the page table, and its entries.
const WRITES: u32 = 16;

fn push_u64(bytes: &mut Vec<u8>, number: u64) -> Result<(), AllocError> {
    bytes.extend_from_slice(&number.to_le_bytes())
}

fn push_write(bytes: &mut Vec<u8>, addr: u64, value: u64) -> Result<(), AllocError> {
    bytes.extend_from_slice(&[0x10, 0])?;
    push_u64(bytes, addr)?;
    push_u64(bytes, value)
}

/// One of the writes that the run begins with: a table above the page table, or an entry of it.
fn push_table(bytes: &mut Vec<u8>, number: u32) -> Result<(), AllocError> {
    match number {
        0 => push_write(bytes, 0x1000, 0x2007),
        1 => push_write(bytes, 0x2000, 0x3007),
        2 => push_write(bytes, 0x3000, 0x4007),
        _ => {
            let page = u64::from(number).saturating_sub(3);
            push_write(bytes, 0x4000 + page * 8, 0x9007 + page * 0x1000)
        }
    }
}

/// A user read that answers the physical page, each level read just before it.
fn push_access(bytes: &mut Vec<u8>, number: u32, answer: u32) -> Result<(), AllocError> {
    let page = u64::from(number % PAGES);
    bytes.extend_from_slice(&[0x11, (number % 4) as u8, 4])?;
    push_u64(bytes, page * 0x1000 + 0x123)?;
    bytes.extend_from_slice(&[0])?;
    push_u64(bytes, u64::from(answer) * 0x1000 + 0x123)?;
    bytes.extend_from_slice(&[4])?;
    for _ in 0..4 {
        bytes.extend_from_slice(&number.to_le_bytes())?;
    }
    Ok(())
}

/// An INVLPG, a MOV to CR3 with another PCID, or an access that answers a page too high where the
/// event is the bad one.
fn push_event(bytes: &mut Vec<u8>, number: u32, bad: u32) -> Result<(), AllocError> {
    let p = (number % 4) as u8;
    if number % 11 == 0 {
        bytes.extend_from_slice(&[0x13, p])?;
        push_u64(bytes, u64::from(number % PAGES) * 0x1000)
    } else if number % 17 == 0 {
        bytes.extend_from_slice(&[0x12, p])?;
        push_u64(bytes, 0x1000 + u64::from(number % 7))
    } else {
        let high = if number == bad { 1 } else { 0 };
        push_access(bytes, number, 9 + number % PAGES + high)
    }
}

fn push_segment(bytes: &mut Vec<u8>, number: u32, count: u32) -> Result<(), AllocError> {
    bytes.extend_from_slice(&[1])?;
    bytes.extend_from_slice(&number.to_le_bytes())?;
    bytes.extend_from_slice(&count.to_le_bytes())
}

/// A record of so many events in segments of so many; one event is bad, if it has that number.
pub fn push_record(
    alloc: Global,
    events: u32,
    segment: u32,
    bad: u32,
) -> Result<Vec<u8>, AllocError>
    requires { 1 ≤ segment }
{
    let mut bytes = Vec::new(alloc);
    bytes.extend_from_slice(&SETTINGS)?;
    bytes.extend_from_slice(&segment.to_le_bytes())?;
    bytes.extend_from_slice(&PROCESSORS)?;
    for number in 0..events {
        if number % segment == 0 {
            push_segment(&mut bytes, number / segment, segment.min(events - number))?;
        }
        if number < WRITES {
            push_table(&mut bytes, number)?;
        } else {
            push_event(&mut bytes, number, bad)?;
        }
    }
    bytes.extend_from_slice(&[2])?;
    bytes.extend_from_slice(&events.to_le_bytes())?;
    Ok(bytes)
}
