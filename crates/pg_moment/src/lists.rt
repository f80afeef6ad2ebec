//! Lists of the values of words that were written often.

ghost use Rattle.std.specs.Prelude.{◌≡◌, ◌≤◌, nat_eq, OnOk, OnErr};
ghost use Rattle.pg_timeline.specs.Timelines.{end_of};
ghost use Rattle.pg_timeline.specs.Keyed.{stamps_in, AreCut, IsPushed};

use pg_timeline::Timeline;
use std::alloc::{AllocError, Global};
use std::collections::HashMap;

/// Adds a value after those of a word. Fails where memory is refused, and then nothing is added.
pub(crate) fn push_listed(
    lists: &mut HashMap<u64, Timeline<u64>>,
    alloc: Global,
    addr: u64,
    moment: u32,
    value: u64,
) -> Result<(), AllocError>
    requires { end_of (stamps_in nat_eq lists.old.entries addr) ≤ moment }
    ensures ok { OnOk result (IsPushed nat_eq lists.old.entries lists.new.entries addr
        (record { moment = moment; value = value })) }
    ensures err { OnErr result (lists.new.entries ≡ lists.old.entries) }
{
    match lists.get_mut(&addr) {
        Some(list) => list.push(moment, value),
        // No word says that it has a list before the list is there.
        None => {
            let mut list = Timeline::new(alloc);
            list.push(moment, value)?;
            lists.insert(addr, list)?;
            Ok(())
        }
    }
}

/// Forgets the values of every list from a moment on.
pub(crate) fn cut_lists(lists: &mut HashMap<u64, Timeline<u64>>, moment: u32)
    ensures { AreCut nat_eq lists.old.entries lists.new.entries moment }
{
    lists.retain(|_, list| {
        list.forget_from(moment);
        true
    });
}
