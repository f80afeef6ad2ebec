//! Classes of keys. The lists of a class are made together.

ghost use Rattle.std.specs.Prelude.{◌≡◌};
ghost use Rattle.pg_inval.specs.Classes.{class_of, is_wide};

use crate::key::DropKey;

/// A class of keys: most look-ups ask for the keys of two classes, and an event that drops what is
/// of an address has keys in each.
#[derive(Clone, Copy)]
pub(crate) enum Class {
    /// Those of a page of 4 KiB that is not global.
    Pages,
    /// Those of a larger page that is not global.
    LargePages,
    /// Those of a global page.
    GlobalPages,
    /// Those of a region, for which there is a paging-structure-cache entry.
    Regions,
    /// Those of a PCID or of a processor.
    Spaces,
}

/// The class of a key.
#[inline(always)]
pub(crate) fn class_of(key: DropKey) -> Class
    ensures { result ≡ class_of key }
{
    match key {
        DropKey::Local { shift, .. } => if shift == 12 {
            Class::Pages
        } else {
            Class::LargePages
        },
        DropKey::Global { .. } => Class::GlobalPages,
        DropKey::Structure { .. } => Class::Regions,
        DropKey::NotGlobal { .. }
        | DropKey::Globals { .. }
        | DropKey::StructuresOf { .. }
        | DropKey::LocalsOf { .. } => Class::Spaces,
    }
}

/// Whether a key is that of a large or of a global page. Many runs have no such page, and an event
/// that drops what is of an address has five such keys.
#[inline(always)]
pub(crate) fn is_wide(key: DropKey) -> bool
    ensures { result ≡ is_wide key }
{
    match class_of(key) {
        Class::LargePages | Class::GlobalPages => true,
        Class::Pages | Class::Regions | Class::Spaces => false,
    }
}
