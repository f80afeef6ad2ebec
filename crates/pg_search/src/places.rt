//! Where pairs of numbers stand, so that a pair is kept once for many events.

ghost use Rattle.std.specs.Prelude.{◌≡◌, ℕ, ◌<◌, ◌≤◌, Some, length, IfOk, IfSome, slice_get};
ghost use Rattle.pg_search.specs.Briefs.{Extends};

use crate::brief::Pair;
use std::alloc::{AllocError, Global};
use std::collections::HashMap;

/// Where the pairs stand that were put away last. Nothing is claimed of it: a pair is looked at
/// before its place is taken. Where memory is refused, some are not kept.
#[derive(Drop)]
pub(crate) struct Places {
    by_key: HashMap<u64, u32>,
}

/// So many places are remembered. Then all are forgotten.
const MOST: usize = 1 << 14;

fn key_of(pair: Pair) -> u64 {
    pair.first ^ pair.second.rotate_left(32)
}

impl Places {
    pub(crate) fn new(alloc: Global) -> Places {
        Places {
            by_key: HashMap::new(alloc),
        }
    }

    /// Where a pair stands, if that is remembered.
    fn find(&self, pairs: &[Pair], pair: Pair) -> Option<u32>
        ensures { IfSome result (λ place. slice_get pairs.now place ≡ Some pair) }
    {
        let place = *self.by_key.get(&key_of(pair))?;
        if *pairs.get(place as usize)? == pair {
            Some(place)
        } else {
            None
        }
    }

    fn note(&mut self, pair: Pair, place: u32) {
        if self.by_key.len() >= MOST {
            self.by_key.clear();
        }
        let _refused = self.by_key.insert(key_of(pair), place).is_err();
    }
}

/// Where a pair stands, once it was put after the others or was found among them. Fails where
/// memory is refused, or as many stand there as a place can tell.
pub(crate) fn place_of(
    pairs: &mut Vec<Pair>,
    places: &mut Places,
    pair: Pair,
) -> Result<u32, AllocError>
    ensures more { Extends pairs.old.items pairs.new.items }
    ensures there { IfOk result (λ place. slice_get pairs.new.items place ≡ Some pair) }
{
    if let Some(place) = places.find(pairs.as_slice(), pair) {
        return Ok(place);
    }
    let place = pairs.len();
    if place > u32::MAX as usize {
        return Err(AllocError);
    }
    pairs.push(pair)?;
    places.note(pair, place as u32);
    Ok(place as u32)
}
