//! What an invalidation drops, by class.

ghost use Rattle.std.specs.Prelude.{◌≡◌, []};
ghost use Rattle.pg_inval.specs.Keys.{structures_for, globals_for};
ghost use Rattle.pg_inval.specs.Classes.{pages_in, large_pages_for, large_pages_in};
ghost use Rattle.pg_inval.specs.Classes.{global_pages_in};
ghost use Rattle.pg_inval.specs.Classes.{regions_in, spaces_in, keys_in};

use crate::class::Class;
use crate::key::{DropKey, global_at, local_at, structure_at};
use arrayvec::ArrayVec;
use pg_entry::Level;
use pg_event::{Invalidation, structure_key, translation_key};

/// Adds the paging-structure-cache entries of a PCID that would be used for an address.
fn push_structures(keys: &mut ArrayVec<DropKey, 3>, p: u16, pcid: u16, la: u64)
    requires { keys.old.items ≡ [] }
    ensures { keys.new.items ≡ structures_for p pcid la }
{
    keys.push(structure_at(p, structure_key(pcid, Level::Four, la)));
    keys.push(structure_at(p, structure_key(pcid, Level::Three, la)));
    keys.push(structure_at(p, structure_key(pcid, Level::Two, la)));
}

/// Adds the global translations that are of the page of an address.
fn push_globals(keys: &mut ArrayVec<DropKey, 3>, p: u16, la: u64)
    requires { keys.old.items ≡ [] }
    ensures { keys.new.items ≡ globals_for p la }
{
    keys.push(global_at(p, translation_key(0, 12, true, la)));
    keys.push(global_at(p, translation_key(0, 21, true, la)));
    keys.push(global_at(p, translation_key(0, 30, true, la)));
}

/// Adds the translations of a PCID that are not global and are of the large pages of an address.
fn push_large_pages(keys: &mut ArrayVec<DropKey, 3>, p: u16, pcid: u16, la: u64)
    requires { keys.old.items ≡ [] }
    ensures { keys.new.items ≡ large_pages_for p pcid la }
{
    keys.push(local_at(p, translation_key(pcid, 21, false, la)));
    keys.push(local_at(p, translation_key(pcid, 30, false, la)));
}

#[inline(always)]
fn pages_in(p: u16, invalidation: Invalidation) -> ArrayVec<DropKey, 3>
    ensures { result.items ≡ pages_in p invalidation }
{
    let mut keys = ArrayVec::new();
    match invalidation {
        Invalidation::Address {
            pcid,
            la,
            translations,
            ..
        } => {
            if translations {
                keys.push(local_at(p, translation_key(pcid, 12, false, la)));
            }
        }
        Invalidation::Page { pcid, la } => {
            keys.push(local_at(p, translation_key(pcid, 12, false, la)));
        }
        Invalidation::Nothing | Invalidation::Pcid(_) | Invalidation::Everything { .. } => {}
    }
    keys
}

#[inline(always)]
fn large_pages_in(p: u16, invalidation: Invalidation) -> ArrayVec<DropKey, 3>
    ensures { result.items ≡ large_pages_in p invalidation }
{
    let mut keys = ArrayVec::new();
    match invalidation {
        Invalidation::Address {
            pcid,
            la,
            translations,
            ..
        } => {
            if translations {
                push_large_pages(&mut keys, p, pcid, la);
            }
        }
        Invalidation::Page { pcid, la } => push_large_pages(&mut keys, p, pcid, la),
        Invalidation::Nothing | Invalidation::Pcid(_) | Invalidation::Everything { .. } => {}
    }
    keys
}

#[inline(always)]
fn global_pages_in(p: u16, invalidation: Invalidation) -> ArrayVec<DropKey, 3>
    ensures { result.items ≡ global_pages_in p invalidation }
{
    let mut keys = ArrayVec::new();
    match invalidation {
        Invalidation::Address { la, globals, .. } => {
            if globals {
                push_globals(&mut keys, p, la);
            }
        }
        Invalidation::Page { la, .. } => push_globals(&mut keys, p, la),
        Invalidation::Nothing | Invalidation::Pcid(_) | Invalidation::Everything { .. } => {}
    }
    keys
}

#[inline(always)]
fn regions_in(p: u16, invalidation: Invalidation) -> ArrayVec<DropKey, 3>
    ensures { result.items ≡ regions_in p invalidation }
{
    let mut keys = ArrayVec::new();
    match invalidation {
        Invalidation::Address {
            pcid,
            la,
            structures,
            ..
        } => {
            if structures {
                push_structures(&mut keys, p, pcid, la);
            }
        }
        Invalidation::Nothing
        | Invalidation::Page { .. }
        | Invalidation::Pcid(_)
        | Invalidation::Everything { .. } => {}
    }
    keys
}

#[inline(always)]
fn spaces_in(p: u16, invalidation: Invalidation) -> ArrayVec<DropKey, 3>
    ensures { result.items ≡ spaces_in p invalidation }
{
    let mut keys = ArrayVec::new();
    match invalidation {
        Invalidation::Nothing | Invalidation::Address { .. } => {}
        Invalidation::Page { pcid, .. } => keys.push(DropKey::StructuresOf { p, pcid }),
        Invalidation::Pcid(pcid) => {
            keys.push(DropKey::StructuresOf { p, pcid });
            keys.push(DropKey::LocalsOf { p, pcid });
        }
        Invalidation::Everything { globals } => {
            keys.push(DropKey::NotGlobal { p });
            if globals {
                keys.push(DropKey::Globals { p });
            }
        }
    }
    keys
}

/// What an invalidation drops on a processor, of a class.
#[inline(always)]
pub(crate) fn keys_in(class: Class, p: u16, invalidation: Invalidation) -> ArrayVec<DropKey, 3>
    ensures { result.items ≡ keys_in class p invalidation }
{
    match class {
        Class::Pages => pages_in(p, invalidation),
        Class::LargePages => large_pages_in(p, invalidation),
        Class::GlobalPages => global_pages_in(p, invalidation),
        Class::Regions => regions_in(p, invalidation),
        Class::Spaces => spaces_in(p, invalidation),
    }
}
