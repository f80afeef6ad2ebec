//! A place for a walk, as long as its slot: an `Option` would take eight bytes more.

ghost use Rattle.std.specs.Prelude.{◌≡◌, Some, None, MatchOption};
ghost use Rattle.pg_entry.specs.Kinds.{IsPageShift};

use crate::memo::Slot;
use pg_entry::{Level, Rights};
use pg_event::Moments;
use std::marker::Model;

/// A place for a walk. One without a walk has a slot whose page has no size.
#[derive(Clone, Copy)]
pub struct Place {
    slot: Slot,
}

/// A place is as long as a line of the cache.
const _: () = prove!(size_of::<Place>() == 64);

impl Model for Place {
    ghost use Rattle.std.specs.Prelude.{Option};
    ghost use Rattle.pg_check.specs.declared.memo.Slot.{Slot};

    ghost Value = { Option Slot };

    ghost use Rattle.pg_check.specs.Places.{walk_at, IsPlace, placed, placed-walk_at};

    ghost view = { walk_at };

    ghost invariant = { IsPlace };

    ghost inverse = { placed };

    ghost inverse_ok = { placed-walk_at };
}

impl Place {
    /// A place without a walk.
    pub(crate) fn empty() -> Place
        ensures { result ≡ None }
    {
        Place {
            slot: Slot {
                page: 0,
                p: 0,
                pcid: 0,
                asked: 0,
                value: 0,
                moments: Moments::first(0),
                shift: 0,
                dropped: false,
                global: false,
                tables: false,
                rights: Rights::ALL,
                level: Level::Four,
                moment: 0,
                address: 0,
            },
        }
    }

    /// A place with a walk.
    #[inline(always)]
    pub(crate) fn of(slot: Slot) -> Place
        requires { IsPageShift slot.shift }
        ensures { result ≡ Some slot }
    {
        Place { slot }
    }

    /// The slot of its walk, if it has one.
    #[inline(always)]
    pub(crate) fn slot(&self) -> Option<&Slot>
        ensures { MatchOption result (self.now ≡ None) (λ slot. self.now ≡ Some slot.now) }
    {
        if self.slot.shift == 0 {
            None
        } else {
            Some(&self.slot)
        }
    }

    /// What both ends of its slot have, as one number, also where it has no walk: whoever asks has
    /// read both lines of the cache that the slot stands in.
    #[inline(always)]
    pub(crate) fn ends(&self) -> u64 {
        self.slot.page ^ self.slot.address
    }
}
