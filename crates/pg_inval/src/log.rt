//! The log of what events dropped.

ghost use Rattle.std.specs.Prelude.{◌≡◌, ◌<◌, ◌≤◌, ℕ, true, false, Some};
ghost use Rattle.std.specs.Prelude.{take, drop, length, slice_get};
ghost use Rattle.pg_inval.specs.declared.log.LogEntry.{LogEntry};
ghost use Rattle.pg_inval.specs.Keys.{has_key, dropped_keys};
ghost use Rattle.pg_inval.specs.Packed.{invalidation_of};
ghost use Rattle.pg_inval.specs.Lists.{has_drop, cut_log, IsRisingFrom, AreBefore, IsLeastBetween};

use crate::class::class_of;
use crate::dropped::keys_in;
use crate::key::DropKey;
use crate::packed::{Packed, invalidation_of};
use pg_event::Window;
use pg_timeline::Probes;

/// What one event dropped from the caches of its processor `p`.
#[derive(Clone, Copy)]
pub(crate) struct LogEntry {
    /// The number of the event.
    pub moment: u32,
    pub p: u16,
    pub packed: Packed,
}

/// Whether an entry has a key. It has keys of its own processor alone, so for others they are not
/// made.
fn has_key(entry: LogEntry, key: DropKey) -> bool
    ensures { result ≡ has_key (dropped_keys entry.p (invalidation_of entry.packed)) key }
{
    if entry.p != key.processor() {
        return false;
    }
    let keys = keys_in(class_of(key), entry.p, invalidation_of(entry.packed));
    keys.as_slice().contains(&key)
}

/// How many entries lie below a moment, by halving.
fn count_below(log: &[LogEntry], moment: u32) -> usize
    requires { IsRisingFrom 0 log.now }
    ensures within { result ≤ length log.now }
    ensures below { AreBefore moment (take result log.now) }
    ensures rest { IsRisingFrom moment (drop result log.now) }
{
    let mut low = 0;
    let mut high = log.len();
    while low < high {
        let middle = low + (high - low) / 2;
        if log[middle].moment < moment {
            low = middle + 1;
        } else {
            high = middle;
        }
    }
    low
}

/// How many entries at the front are below a moment and lack a key.
fn count_without(log: &[LogEntry], key: DropKey, to: u32) -> usize
    ensures within { result ≤ length log.now }
    ensures without { (j : ℕ) → has_drop (take result log.now) key j ≡ false }
    ensures stop { (e : LogEntry) → slice_get log.now result ≡ Some e → e.moment < to →
        has_key (dropped_keys e.p (invalidation_of e.packed)) key ≡ true }
{
    let mut count = 0;
    while count < log.len() {
        let entry = log[count];
        if entry.moment >= to || has_key(entry, key) {
            return count;
        }
        count += 1;
    }
    count
}

/// The least moment below one at which some entries have a key. The first entry that has the key is
/// the least, since their moments rise. It counts the entries that it passes over, which are no
/// probes.
fn first_of(log: &[LogEntry], key: DropKey, to: u32, probes: &mut Probes) -> Option<u32>
    ensures least { (from : ℕ) → IsRisingFrom from log.now →
        IsLeastBetween (has_drop log.now key) from to result }
    ensures probes { probes.new ≡ probes.old }
{
    let count = count_without(log, key, to);
    probes.pass(count);
    let entry = log.get(count)?;
    if entry.moment < to {
        Some(entry.moment)
    } else {
        None
    }
}

/// The least moment of a window at which some entries have a key.
pub(crate) fn first_in(
    log: &[LogEntry],
    key: DropKey,
    window: Window,
    probes: &mut Probes,
) -> Option<u32>
    requires { IsRisingFrom 0 log.now }
    ensures least { IsLeastBetween (has_drop log.now key) window.from window.to result }
    ensures probes { probes.new ≡ probes.old }
{
    let start = count_below(log, window.from);
    first_of(&log[start..], key, window.to, probes)
}

/// Forgets the entries from a moment on.
pub(crate) fn forget_entries(log: &mut Vec<LogEntry>, moment: u32)
    ensures { log.new.items ≡ cut_log moment log.old.items }
{
    log.retain(|entry| entry.moment < moment);
}
