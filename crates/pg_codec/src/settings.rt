use pg_entry::Cfg;
use pg_event::Version;

/// A header without its processors.
#[derive(Clone, Copy)]
pub struct Settings {
    pub version: Version,
    pub cfg: Cfg,
    /// How many processors follow.
    pub count: u16,
    /// The events of a full segment.
    pub segment: u32,
}
