//! Events in little room: without their moments, and without the values of writes.

ghost use Rattle.std.specs.Prelude.{◌≡◌, ℕ};
ghost use Rattle.pg_search.specs.Law.{names_moments, with_moments};
ghost use Rattle.pg_search.specs.Placeholders.{with_placeholder};
ghost use Rattle.pg_search.specs.Changes.{changes_something, idle};
ghost use Rattle.pg_search.specs.Writers.{writes};
ghost use Rattle.pg_search.specs.Briefs.{event_by, IsLeft};

use pg_event::{Event, MemoryChange, Moments, Outcome, Request};

/// Whether an event changes memory, control registers or caches: all do but accesses that got their
/// answer.
pub fn changes_something(event: &Event) -> bool
    ensures { result ≡ changes_something event.now }
{
    match event.request() {
        Request::Access { outcome, .. } => match outcome {
            Outcome::Page(_) => false,
            Outcome::Fault(_) => true,
        },
        Request::Update { .. } | Request::Nothing => true,
    }
}

/// Whether an event writes the word at a physical address.
pub fn writes(address: u64, event: &Event) -> bool
    ensures { result ≡ writes address event.now }
{
    match event.memory_change() {
        MemoryChange::Value { addr, .. } | MemoryChange::Flags { addr, .. } => addr == address,
        MemoryChange::Nothing => false,
    }
}

/// Whether an event names moments: accesses and assists do.
pub fn names_moments(event: &Event) -> bool
    ensures { result ≡ names_moments event.now }
{
    match event.request() {
        Request::Access { .. } | Request::Update { .. } => true,
        Request::Nothing => false,
    }
}

/// The event with these moments in place of its own, if it names some.
pub fn with_moments(event: &Event, chosen: Moments) -> Event
    ensures { result ≡ with_moments chosen event.now }
{
    match *event {
        Event::Access {
            p,
            flags,
            la,
            outcome,
            ..
        } => Event::Access {
            p,
            flags,
            la,
            outcome,
            moments: chosen,
        },
        Event::Assist {
            p,
            flags,
            la,
            word,
            ..
        } => Event::Assist {
            p,
            flags,
            la,
            word,
            moments: chosen,
        },
        Event::Write { .. }
        | Event::MovCr3 { .. }
        | Event::Invlpg { .. }
        | Event::Invpcid { .. }
        | Event::MovCr4Pge { .. } => *event,
    }
}

/// An event with one moment 0 in place of its moments.
pub fn with_placeholder(event: &Event) -> Event
    ensures { result ≡ with_placeholder event.now }
{
    with_moments(event, Moments::first(0))
}

/// An access that got its answer.
pub(crate) fn idle() -> Event
    ensures { result ≡ idle }
{
    Event::Access {
        p: 0,
        flags: 0,
        la: 0,
        outcome: Outcome::Page(0),
        moments: Moments::first(0),
    }
}

/// Which event it is.
#[derive(Clone, Copy)]
pub(crate) enum Sort {
    Write,
    Answer,
    Fault,
    Assist,
    MovCr3,
    Invlpg,
    Invpcid,
    MovCr4Pge,
}

/// Two numbers of an event.
#[derive(Clone, Copy, PartialEq, Eq)]
pub(crate) struct Pair {
    /// The address of a write, the linear address, or the operand of MOV to CR3.
    pub first: u64,
    /// What an access came to, the word of an assist, or a PCID.
    pub second: u64,
}

/// The number of an event, what else it is, and where its other numbers stand, in 12 bytes.
#[derive(Clone, Copy)]
pub(crate) struct Brief {
    pub number: u32,
    pub place: u32,
    pub p: u16,
    pub sort: Sort,
    /// The flags, the type of INVPCID, or 1 where PGE is left on.
    pub flags: u8,
}

const _: () = prove!(size_of::<Brief>() == 12);

/// The event with this number in brief, with its other numbers, which have no place yet.
pub(crate) fn brief_of(event: &Event, number: u32) -> (Brief, Pair)
    ensures number { result.0.number ≡ number }
    ensures event { (left : ℕ) → IsLeft event.now result.1.first left →
        event_by left result.0 result.1 ≡ with_placeholder event.now }
{
    let (sort, p, flags, first, second) = match *event {
        Event::Write { p, addr, .. } => (Sort::Write, p, 0, addr, 0),
        Event::Access {
            p,
            flags,
            la,
            outcome: Outcome::Page(page),
            ..
        } => (Sort::Answer, p, flags, la, page),
        Event::Access {
            p,
            flags,
            la,
            outcome: Outcome::Fault(code),
            ..
        } => (Sort::Fault, p, flags, la, code as u64),
        Event::Assist {
            p,
            flags,
            la,
            word,
            ..
        } => (Sort::Assist, p, flags, la, word),
        Event::MovCr3 { p, operand } => (Sort::MovCr3, p, 0, operand, 0),
        Event::Invlpg { p, la } => (Sort::Invlpg, p, 0, la, 0),
        Event::Invpcid { p, kind, pcid, la } => (Sort::Invpcid, p, kind, la, pcid as u64),
        Event::MovCr4Pge { p, on } => (Sort::MovCr4Pge, p, on as u8, 0, 0),
    };
    let brief = Brief {
        number,
        place: 0,
        p,
        sort,
        flags,
    };
    (brief, Pair { first, second })
}

/// The event that is kept in brief, with these numbers, where it left this value if it is a write.
pub(crate) fn event_by(left: u64, brief: Brief, pair: Pair) -> Event
    ensures { result ≡ event_by left brief pair }
{
    let Brief { p, flags, .. } = brief;
    let Pair { first, second } = pair;
    let moments = Moments::first(0);
    match brief.sort {
        Sort::Write => Event::Write {
            p,
            addr: first,
            value: left,
        },
        Sort::Answer => Event::Access {
            p,
            flags,
            la: first,
            outcome: Outcome::Page(second),
            moments,
        },
        Sort::Fault => Event::Access {
            p,
            flags,
            la: first,
            outcome: Outcome::Fault((second % (1 << 16)) as u16),
            moments,
        },
        Sort::Assist => Event::Assist {
            p,
            flags,
            la: first,
            word: second,
            moments,
        },
        Sort::MovCr3 => Event::MovCr3 { p, operand: first },
        Sort::Invlpg => Event::Invlpg { p, la: first },
        Sort::Invpcid => Event::Invpcid {
            p,
            kind: flags,
            pcid: (second % (1 << 16)) as u16,
            la: first,
        },
        Sort::MovCr4Pge => Event::MovCr4Pge { p, on: flags == 1 },
    }
}
