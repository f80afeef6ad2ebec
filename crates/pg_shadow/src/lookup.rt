ghost use Rattle.std.specs.Prelude.{◌≡◌};
ghost use Rattle.pg_shadow.specs.Find.{is_usable, leaf_or, table_or, chosen};

use crate::entries::{Found, KeptLeaf, KeptTable};
use crate::slot::Path;
use pg_entry::{AccessKind, Level, Op, allowed};
use pg_event::{Header, Version};

/// Whether an access may use a translation.
fn is_usable(header: &Header, kind: AccessKind, leaf: &KeptLeaf) -> bool
    ensures { result ≡ is_usable header.now kind leaf.now }
{
    match header.version {
        Version::One => true,
        Version::Two => {
            let write = matches!(kind.op, Op::Write);
            !(write && allowed(header.cfg, leaf.rights, kind) && !leaf.dirty)
        }
    }
}

fn leaf_or(
    header: &Header,
    kind: AccessKind,
    shift: u8,
    global: bool,
    leaf: Option<KeptLeaf>,
    other: Found,
) -> Found
    ensures { result ≡ leaf_or header.now kind shift global leaf other }
{
    match leaf {
        Some(leaf) if is_usable(header, kind, &leaf) => Found::Hit {
            frame: leaf.frame,
            shift,
            rights: leaf.rights,
            global,
            moments: leaf.moments,
        },
        Some(_) | None => other,
    }
}

fn table_or(level: Level, table: Option<KeptTable>, other: Found) -> Found
    ensures { result ≡ table_or level table other }
{
    match table {
        Some(kept) => Found::Partial {
            level,
            table: kept.table,
            rights: kept.rights,
            moments: kept.moments,
        },
        None => other,
    }
}

/// The first that may be used of what stands in the slots that a walk meets.
pub(crate) fn chosen(own: &Path, globals: &Path, header: &Header, kind: AccessKind) -> Found
    ensures { result ≡ chosen own.now globals.now header.now kind }
{
    let found = table_or(Level::Four, own.four.structure, Found::Miss);
    let found = table_or(Level::Three, own.three.structure, found);
    let found = table_or(Level::Two, own.two.structure, found);
    let found = leaf_or(header, kind, 30, true, globals.three.translation, found);
    let found = leaf_or(header, kind, 30, false, own.three.translation, found);
    let found = leaf_or(header, kind, 21, true, globals.two.translation, found);
    let found = leaf_or(header, kind, 21, false, own.two.translation, found);
    let found = leaf_or(header, kind, 12, true, globals.one.translation, found);
    leaf_or(header, kind, 12, false, own.one.translation, found)
}
