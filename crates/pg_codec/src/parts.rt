//! The next part of a record, from a buffer over a source.

ghost use Rattle.std.specs.Prelude.{◌≡◌, ◌≤◌, ◌<◌, ◌^◌, None, IfOk, length, vec_len};
ghost use Rattle.std.specs.Prelude.{vec_capacity};
ghost use Rattle.std.specs.Int.{w32};
ghost use Rattle.pg_event.specs.Form.{broken_rule};
ghost use Rattle.pg_event.specs.Reading.{byte_at, number_at, start_at, event_at};
ghost use Rattle.pg_codec.specs.Reads.{seen, Takes, Pulls, PullsEvent};
ghost use Rattle.pg_codec.specs.Parts.{settings_at, AreSettings};

use crate::buffer::Buffer;
use crate::decoder::{add_event, event_of};
use crate::error::ReadError;
use crate::fields::{byte_of, u32_of};
use crate::front::{settings_of, start_of};
use crate::naming::Naming;
use crate::settings::Settings;
use crate::spelling::LONGEST_PART;
use crate::stream::Source;
use pg_event::{Event, Header, Refusal};

/// A part that was read, and how many bytes it leaves.
fn counted<T: Copy>(part: &Result<(T, &[u8]), Refusal>) -> Result<(T, usize), Refusal>
    ensures { result ≡ seen (λ x. (x.0, length x.1.now)) part.now }
{
    match *part {
        Ok((value, rest)) => Ok((value, rest.len())),
        Err(refusal) => Err(refusal),
    }
}

/// The value of a part that was read, whose bytes are let go.
fn taken<T: Copy>(buffer: &mut Buffer, part: Result<(T, usize), Refusal>) -> Result<T, ReadError>
    requires { IfOk part (λ x. x.1 ≤ length buffer.old) }
    ensures { Takes buffer.old buffer.new part result }
{
    match part {
        Ok((value, left)) => {
            buffer.keep_last(left);
            Ok(value)
        }
        Err(refusal) => Err(ReadError::Refused(refusal)),
    }
}

pub(crate) fn next_byte<R: Source>(buffer: &mut Buffer, source: &mut R) -> Result<u8, ReadError>
    ensures { Pulls R.Source byte_at (buffer.old, source.old) (buffer.new, source.new) result }
{
    buffer.prepare(source)?;
    let part = counted(&byte_of(buffer.unread()));
    taken(buffer, part)
}

pub(crate) fn next_u32<R: Source>(buffer: &mut Buffer, source: &mut R) -> Result<u32, ReadError>
    ensures { Pulls R.Source (number_at w32)
        (buffer.old, source.old) (buffer.new, source.new) result }
{
    buffer.prepare(source)?;
    let part = counted(&u32_of(buffer.unread()));
    taken(buffer, part)
}

pub(crate) fn next_settings<R: Source>(
    buffer: &mut Buffer,
    source: &mut R,
) -> Result<Settings, ReadError>
    ensures pulls { Pulls R.Source settings_at
        (buffer.old, source.old) (buffer.new, source.new) result }
    ensures bounds { IfOk result (λ s. AreSettings s) }
{
    buffer.prepare(source)?;
    let part = counted(&settings_of(buffer.unread()));
    taken(buffer, part)
}

pub(crate) fn next_start<R: Source>(
    buffer: &mut Buffer,
    source: &mut R,
    maxphyaddr: u8,
) -> Result<(u64, bool), ReadError>
    requires { maxphyaddr ≤ 52 }
    ensures pulls { Pulls R.Source (start_at maxphyaddr)
        (buffer.old, source.old) (buffer.new, source.new) result }
    ensures cr3 { IfOk result (λ x. x.0 < 2 ^ maxphyaddr) }
{
    buffer.prepare(source)?;
    let part = counted(&start_of(maxphyaddr, buffer.unread()));
    taken(buffer, part)
}

/// Event number `i`.
fn next_event<R: Source>(
    buffer: &mut Buffer,
    source: &mut R,
    header: &Header,
    i: u64,
) -> Result<Event, ReadError>
    requires { header.now.cfg.m ≤ 52 }
    ensures pulls { Pulls R.Source (event_at header.now i)
        (buffer.old, source.old) (buffer.new, source.new) result }
    ensures well { IfOk result (λ e. broken_rule header.now e ≡ None) }
{
    buffer.prepare(source)?;
    let part = counted(&event_of(Naming::Named, header, i, buffer.unread()));
    taken(buffer, part)
}

/// Adds event number `i`, or says its refusal, however few of its bytes are at hand.
#[cold]
#[inline(never)]
fn add_other<R: Source>(
    buffer: &mut Buffer,
    source: &mut R,
    header: &Header,
    i: u64,
    events: &mut Vec<Event>,
) -> Result<(), ReadError>
    requires address { header.now.cfg.m ≤ 52 }
    requires room { vec_len events.old < vec_capacity events.old }
    ensures { PullsEvent R.Source header.now i (buffer.old, source.old) (buffer.new, source.new)
        events.old.items events.new.items result }
{
    let event = next_event(buffer, source, header, i)?;
    events.push_reserved(event);
    Ok(())
}

/// Adds event number `i`. Where the longest event is at hand it is read with no refusal to tell;
/// what that does not take is read anew.
#[inline(always)]
pub(crate) fn add_next<R: Source>(
    buffer: &mut Buffer,
    source: &mut R,
    header: &Header,
    i: u64,
    events: &mut Vec<Event>,
) -> Result<(), ReadError>
    requires address { header.now.cfg.m ≤ 52 }
    requires room { vec_len events.old < vec_capacity events.old }
    ensures { PullsEvent R.Source header.now i (buffer.old, source.old) (buffer.new, source.new)
        events.old.items events.new.items result }
{
    let bytes = buffer.unread();
    if bytes.len() >= LONGEST_PART {
        if let Some(left) = add_event(header, bytes, events) {
            buffer.keep_last(left);
            return Ok(());
        }
    }
    add_other(buffer, source, header, i, events)
}
