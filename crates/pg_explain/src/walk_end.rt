//! Where a walk ends.

ghost use Rattle.std.specs.Prelude.{◌≡◌, ◌≤◌, length};
ghost use Rattle.pg_explain.specs.Walk.{down_to_end};

use crate::entry::WalkEntry;
use crate::walk_finding::is_table;

/// The entries of a walk down to the first that is no table: all, where each is one.
pub fn down_to_end(walk: &[WalkEntry]) -> &[WalkEntry]
    ensures entries { result.now ≡ down_to_end walk.now }
    ensures count { length result.now ≤ length walk.now }
{
    for (i, entry) in walk.iter().enumerate() {
        if !is_table(entry.kind) {
            return &walk[..i + 1];
        }
    }
    walk
}
