//! The log of values that others took the place of.

ghost use Rattle.std.specs.Prelude.{◌≡◌, ◌+◌, ◌≤◌, IfOk};
ghost use Rattle.std.specs.Option.{unwrap_or};
ghost use Rattle.pg_timeline.specs.Timelines.{last_before, IsSpan};
ghost use Rattle.pg_moment.specs.Stamps.{AreLogged, cut_logged, logged};

use crate::word::{Others, UNWRITTEN, Word};
use pg_timeline::{Probes, Span, Timeline};
use std::alloc::{AllocError, Global};

/// A value that another took the place of.
#[derive(Clone, Copy)]
pub(crate) struct Older {
    pub value: u64,
    /// The number of the event that left it there.
    pub moment: u32,
    /// The place in the log of the one before it, of the same word, if there is one.
    pub before: u32,
}

/// The value of the last stamp below a moment, of a word with `count` values in the log, the last
/// of them at `place`.
pub(crate) fn last_logged(
    log: &[Older],
    place: u32,
    count: u32,
    moment: u32,
    probes: &mut Probes,
) -> Option<u64>
    requires { AreLogged log.now count place }
    ensures value { result ≡ last_before moment (logged log.now count place) }
    ensures probes { (probes.old ≤ probes.new) × (probes.new ≤ probes.old + count) }
{
    let mut at = place;
    let mut left = count;
    while 0 < left {
        let older = log[at as usize];
        probes.tick();
        if older.moment < moment {
            return Some(older.value);
        }
        at = older.before;
        left -= 1;
    }
    None
}

/// What `last_logged` gives, or another value where there is none, and the moments around this one
/// at which it is the same.
pub(crate) fn span_logged(
    log: &[Older],
    place: u32,
    count: u32,
    moment: u32,
    start: u64,
    probes: &mut Probes,
) -> Span<u64>
    requires { AreLogged log.now count place }
    ensures span { IsSpan (λ w. unwrap_or (last_before w (logged log.now count place)) start)
        moment result }
    ensures probes { (probes.old ≤ probes.new) × (probes.new ≤ probes.old + count) }
{
    let mut at = place;
    let mut left = count;
    let mut to = u32::MAX;
    while 0 < left {
        let older = log[at as usize];
        probes.tick();
        if older.moment < moment {
            return Span {
                value: older.value,
                from: older.moment + 1,
                to,
            };
        }
        to = to.min(older.moment);
        at = older.before;
        left -= 1;
    }
    Span {
        value: start,
        from: 0,
        to,
    }
}

/// The values of a word as a list: `count` values in the log, the last of them at `place`. They are
/// few, since a call stands for each.
pub(crate) fn list_logged(
    alloc: Global,
    log: &[Older],
    place: u32,
    count: u32,
) -> Result<Timeline<u64>, AllocError>
    requires logged { AreLogged log.now count place }
    requires few { count ≤ 32 }
    ensures { IfOk result (λ list. list ≡ logged log.now count place) }
{
    if count == 0 {
        return Ok(Timeline::new(alloc));
    }
    let older = log[place as usize];
    let mut list = list_logged(alloc, log, older.before, count - 1)?;
    list.push(older.moment, older.value)?;
    Ok(list)
}

/// A word without its values from a moment on, where `count` others are in the log, the last of
/// them at `place`.
pub(crate) fn cut_logged(log: &[Older], moment: u32, word: Word, place: u32, count: u32) -> Word
    ensures { result ≡ cut_logged log.now moment count place word }
{
    if word.moment < moment {
        return word;
    }
    if count == 0 {
        return UNWRITTEN;
    }
    let left = count - 1;
    match log.get(place as usize) {
        Some(older) => {
            let earlier = Word {
                value: older.value,
                moment: older.moment,
                others: Others::Logged {
                    place: older.before,
                    count: left,
                },
            };
            cut_logged(log, moment, earlier, older.before, left)
        }
        None => UNWRITTEN,
    }
}
