use pg_event::Refusal;

/// Why bytes spell no record of version 3 or 4: the first field, from left to right, that is cut or
/// fails its check.
#[derive(Clone, Copy, PartialEq, Eq, Debug)]
pub enum SpannedRefusal {
    /// As in records of versions 1 and 2. The version is neither 3 nor 4; a malformed event breaks
    /// one of the rules 1 to 6.
    Plain(Refusal),
    /// An event, by its number, breaks rule 7 and no other: its span begins before the first event.
    Back { event: u64 },
}
