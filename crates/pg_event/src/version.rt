ghost use Rattle.std.specs.Prelude.{◌≡◌};
ghost use Rattle.pg_event.specs.Heads.{may_cache};

use pg_entry::{Entry, accessed};

/// The version of a record.
#[derive(Clone, Copy, PartialEq, Eq, Debug)]
pub enum Version {
    /// Accessed and dirty flags are not judged. At most 64 processors.
    One,
    /// Accessed and dirty flags are judged, and their updates are events (Intel SDM, vol. 3, 4.8).
    /// At most 1,024 processors.
    Two,
}

/// Whether an entry may be cached: where accessed flags are judged, it has A (Intel SDM, vol. 3,
/// 4.8).
pub fn may_cache(version: Version, entry: Entry) -> bool
    ensures { result ≡ may_cache version entry.0 }
{
    match version {
        Version::One => true,
        Version::Two => accessed(entry),
    }
}
