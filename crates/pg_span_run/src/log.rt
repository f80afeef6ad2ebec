//! The log of one processor.

ghost use Rattle.std.specs.Prelude.{◌≡◌};
ghost use Rattle.pg_span_run.specs.Logs.{IsLog};

use pg_entry::Cfg;
use pg_event::{Event, Version};
use std::marker::Model;

/// What a log says of its run, and of its processor at the start.
#[derive(Clone, Copy)]
pub struct LogHeader {
    /// The version of records whose events these are.
    pub version: Version,
    pub cfg: Cfg,
    /// How many processors the run has, and so how many logs.
    pub processors: u16,
    /// The processor of this log, from 0.
    pub own: u16,
    /// Its CR3 at the start, and whether it has global pages (CR4.PGE).
    pub start: (u64, bool),
}

/// An event with its stamps, which are numbers of a counter that all processors share.
#[derive(Clone, Copy)]
pub struct Stamped {
    /// The counter before the event did anything.
    pub begin: u64,
    /// The counter when it had done all.
    pub end: u64,
    /// The event. An access and an assist have one moment, 0, that means nothing.
    pub event: Event,
}

/// What one processor did: a header, and events with stamps that rise.
#[derive(Drop)]
pub struct Log {
    header: LogHeader,
    events: Vec<Stamped>,
}

impl Model for Log {
    ghost use Rattle.pg_span_run.specs.Logs.{Logged, IsLog};

    ghost Value = { Logged };

    ghost view = { λ l. record { head = l.header; events = l.events.items } };

    ghost invariant = { λ l. IsLog (record { head = l.header; events = l.events.items }) };
}

impl Log {
    pub(crate) fn new(header: LogHeader, events: Vec<Stamped>) -> Log
        requires { IsLog (record { head = header; events = events.items }) }
        ensures { result ≡ record { head = header; events = events.items } }
    {
        Log { header, events }
    }

    /// The settings of the run, and the start of the processor.
    pub fn header(&self) -> &LogHeader
        ensures header { result.now ≡ self.now.head }
        ensures log { IsLog self.now }
    {
        &self.header
    }

    /// The events in the order in which the processor carried them out.
    pub fn events(&self) -> &[Stamped]
        ensures events { result.now ≡ self.now.events }
        ensures log { IsLog self.now }
    {
        self.events.as_slice()
    }
}
