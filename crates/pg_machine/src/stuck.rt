use pg_event::Malformed;
use thiserror::Error;

/// Why a machine cannot take a step: the first of these that lacks. A stuck step changes nothing.
#[derive(Clone, Copy, PartialEq, Eq, Debug, Error)]
pub enum Stuck {
    /// There is no such processor, or the address of a fill is not canonical.
    #[error("no such processor, or an address that is not canonical")]
    Processor,
    /// No entry of the paging-structure caches leads a walk to the table of a fill (Intel SDM,
    /// vol. 3, 4.10.3).
    #[error("no cached entry leads to the table")]
    Source,
    /// The entry that a fill reads is not of the kind that it wants: a table, or for a translation
    /// a page. Or accessed flags are judged, and it has A = 0 (4.8).
    #[error("the entry is not of the kind that is wanted")]
    Kind,
    /// The processor does not hold what it is to drop.
    #[error("what is to be dropped is not held")]
    Member,
    /// No translation that the processor may use gives the outcome of an access (Intel SDM, vol. 3,
    /// 4.10.2).
    #[error("no cached translation gives the outcome")]
    Translation,
    /// No entry that the walk may read is absent or has a reserved bit set, or it does not give
    /// that error code (Intel SDM, vol. 3, 4.7). Of an assist: the word is no entry that the walk
    /// may read, or it is absent or has a reserved bit set, or the assist is dirty and it is no
    /// page or the rights do not allow the access (4.8).
    #[error("no entry that may be read gives the fault or takes the assist")]
    Entry,
    /// The event breaks a rule. This is looked at before what an access or an assist needs.
    #[error("the event is malformed")]
    Malformed(Malformed),
    /// There is no memory for what the step adds.
    #[error("memory ran out")]
    Memory,
}
