//! What the rights of walks allow, told by a table.

ghost use Rattle.std.specs.Prelude.{◌≡◌, ◌<◌};
ghost use Rattle.pg_entry.specs.Permission.{if_set, is_allowed};
ghost use Rattle.pg_state.specs.Permissions.{IsTable, op_at, rights_at, kind_at, op_number};
ghost use Rattle.pg_state.specs.Permissions.{place_of};

use pg_entry::{AccessKind, Cfg, Op, Rights, allowed};
use std::marker::Model;

/// So many places has the table.
const PLACES: usize = 128;

/// What `allowed` says of all rights and kinds of access in a run with these settings, so that an
/// access only looks it up.
#[derive(Drop)]
pub(crate) struct Permissions {
    cfg: Cfg,
    table: [bool; PLACES],
}

impl Model for Permissions {
    ghost use Rattle.pg_entry.specs.declared.Cfg.{Cfg};
    ghost use Rattle.pg_state.specs.Permissions.{IsTable};

    ghost Value = { Cfg };

    ghost view = { λ p. p.cfg };

    ghost invariant = { λ p. IsTable p.cfg p.table };
}

fn op_at(place: usize) -> Op
    ensures { result ≡ op_at place }
{
    match place / 8 % 4 {
        0 => Op::Read,
        1 => Op::Write,
        _ => Op::Fetch,
    }
}

fn rights_at(place: usize) -> Rights
    ensures { result ≡ rights_at place }
{
    Rights {
        write: place % 2 == 1,
        user: place / 2 % 2 == 1,
        xd: place / 4 % 2 == 1,
    }
}

fn kind_at(place: usize) -> AccessKind
    ensures { result ≡ kind_at place }
{
    AccessKind {
        op: op_at(place),
        user: place / 32 % 2 == 1,
        ac: place / 64 % 2 == 1,
    }
}

#[inline(always)]
fn op_number(op: Op) -> usize
    ensures { result ≡ op_number op }
{
    match op {
        Op::Read => 0,
        Op::Write => 1,
        Op::Fetch => 2,
    }
}

#[inline(always)]
fn place_of(rights: Rights, kind: AccessKind) -> usize
    ensures place { result ≡ place_of rights kind }
    ensures within { result < 128 }
{
    rights.write as usize
        + 2 * (rights.user as usize)
        + 4 * (rights.xd as usize)
        + 8 * op_number(kind.op)
        + 32 * (kind.user as usize)
        + 64 * (kind.ac as usize)
}

fn table_of(cfg: Cfg) -> [bool; PLACES]
    ensures { IsTable cfg result }
{
    let mut table = [false; PLACES];
    for place in 0..PLACES {
        table[place] = allowed(cfg, rights_at(place), kind_at(place));
    }
    table
}

impl Permissions {
    /// Those of a run with these settings.
    pub(crate) fn new(cfg: Cfg) -> Permissions
        ensures { result ≡ cfg }
    {
        Permissions {
            cfg,
            table: table_of(cfg),
        }
    }

    /// Whether the rights of a whole walk allow an access (Intel SDM, vol. 3, 4.6.1).
    #[inline(always)]
    pub(crate) fn allow(&self, rights: Rights, kind: AccessKind) -> bool
        ensures { result ≡ is_allowed self.now rights kind }
    {
        self.table[place_of(rights, kind)]
    }
}
