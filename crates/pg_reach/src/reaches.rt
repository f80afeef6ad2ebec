//! Reaches, as they are found.

ghost use Rattle.std.specs.Prelude.{◌≡◌, [], ◌∷◌, ◌++◌, true, false, Some, IsTrue, IfSome, OnOk};
ghost use Rattle.std.specs.Prelude.{slice_get};
ghost use Rattle.pg_reach.specs.Reaching.{Stretches, Stands, IsCut, IsCovered, HasRoom, IsAdded};

use crate::reach::{Reach, are_within};
use pg_event::Parent;
use std::alloc::{AllocError, Global};
use std::collections::HashMap;
use std::marker::Model;

/// Reaches, of which none has what the last one with its table has.
#[derive(Drop)]
pub(crate) struct Reaches {
    all: Vec<Reach>,
    /// Where the last one stands, by its table.
    last: HashMap<u64, usize>,
}

impl Model for Reaches {
    ghost use Rattle.std.specs.Prelude.{List};
    ghost use Rattle.pg_reach.specs.declared.reach.Reach.{Reach};

    ghost Value = { List Reach };

    ghost view = { λ x. x.all.items };
}

/// A number for a table with its rights: its address has no bits below 12. Where two have one, less
/// is left out.
fn key_of(table: Parent) -> u64 {
    let rights = table.rights;
    let write = if rights.write { 1 } else { 0 };
    let user = if rights.user { 2 } else { 0 };
    let xd = if rights.xd { 4 } else { 0 };
    table.table ^ (write + user + xd)
}

/// Whether a reach may stand for another at each moment that both have: it has the table, and where
/// the freshest moments are asked for, moments that are no earlier.
fn stands_for(freshest: bool, reach: &Reach, other: &Reach) -> bool
    ensures { IsTrue result → Stands freshest other.now reach.now }
{
    let (a, b) = (reach.table.rights, other.table.rights);
    reach.table.table == other.table.table
        && (a.write == b.write && a.user == b.user && a.xd == b.xd)
        && (!freshest || are_within(other.latest.as_slice(), reach.latest.as_slice()))
}

/// Whether a reach may stand for another at each of its moments.
fn covers(freshest: bool, reach: &Reach, other: &Reach) -> bool
    ensures { IsTrue result → Stretches freshest other.now reach.now }
{
    stands_for(freshest, reach, other) && reach.from <= other.from && other.to <= reach.to
}

/// A reach up to where another begins, if that may stand for it from there on.
fn cut(freshest: bool, reach: &Reach, other: &Reach) -> Option<Reach>
    ensures { IfSome result (IsCut freshest reach.now other.now) }
{
    let before = other.from.checked_sub(1)?;
    if before < reach.to && reach.to <= other.to && stands_for(freshest, other, reach) {
        Some(Reach {
            to: before,
            ..*reach
        })
    } else {
        None
    }
}

impl Reaches {
    pub(crate) fn new(alloc: Global) -> Reaches
        ensures { result ≡ [] }
    {
        Reaches {
            all: Vec::new(alloc),
            last: HashMap::new(alloc),
        }
    }

    /// The reaches.
    pub(crate) fn as_slice(&self) -> &[Reach]
        ensures { result.now ≡ self.now }
    {
        &self.all
    }

    /// The last reach with a key, and where it stands.
    fn last_with(&self, key: u64) -> Option<(usize, Reach)>
        ensures { IfSome result (λ x. slice_get self.now x.0 ≡ Some x.1) }
    {
        let place = *self.last.get(&key)?;
        match self.all.get(place) {
            Some(reach) => Some((place, *reach)),
            None => None,
        }
    }

    /// Cuts the reach that stands at a place where another begins, if that may stand for it from
    /// there on.
    #[tactic(auto, using(crate::proofs::Rooms::room_as_is))]
    fn cut_at(&mut self, freshest: bool, place: usize, other: &Reach, reach: &Reach)
        requires { slice_get self.old place ≡ Some other.now }
        ensures { HasRoom freshest self.old self.new reach.now }
    {
        let Some(early) = cut(freshest, other, reach) else {
            return;
        };
        self.all[place] = early;
    }

    /// Whether a reach has to be added, since no other stands for it at each of its moments. Then
    /// the one for which it may stand is cut.
    #[tactic(auto, using(crate::proofs::Rooms::room_as_is))]
    fn make_room(&mut self, freshest: bool, key: u64, reach: &Reach) -> bool
        ensures covered { result ≡ false → (self.new ≡ self.old)
            × IsCovered freshest self.old reach.now }
        ensures room { result ≡ true → HasRoom freshest self.old self.new reach.now }
    {
        let Some((place, other)) = self.last_with(key) else {
            return true;
        };
        if covers(freshest, &other, reach) {
            return false;
        }
        self.cut_at(freshest, place, &other, reach);
        true
    }

    /// One more, with its key.
    fn push(&mut self, key: u64, reach: Reach) -> Result<(), AllocError>
        ensures { OnOk result (self.new ≡ self.old ++ reach ∷ []) }
    {
        self.last.insert(key, self.all.len())?;
        match self.all.push(reach) {
            Ok(()) => Ok(()),
            Err(_refused) => Err(AllocError),
        }
    }

    /// One more, unless another stands for it at each of its moments. Fails where memory is
    /// refused.
    pub(crate) fn add(&mut self, freshest: bool, reach: Reach) -> Result<(), AllocError>
        ensures { OnOk result (IsAdded freshest self.old self.new reach) }
    {
        let key = key_of(reach.table);
        if !self.make_room(freshest, key, &reach) {
            return Ok(());
        }
        self.push(key, reach)
    }
}
