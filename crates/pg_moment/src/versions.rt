ghost use Rattle.std.specs.Prelude.{◌≡◌, ℕ, nat_eq, ◌+◌, ◌≤◌, List, [], ◌∷◌, ◌++◌, length, OnOk};
ghost use Rattle.std.specs.Prelude.{OnErr};
ghost use Rattle.pg_event.specs.declared.event.Event.{Event};
ghost use Rattle.pg_event.specs.Values.{mem_at};
ghost use Rattle.pg_timeline.specs.Timelines.{IsSpan};
ghost use Rattle.pg_moment.specs.Versions.{next_moment, value_at, IsNoted, IsSame, IsCutAt, Leaves};
ghost use Rattle.pg_moment.specs.Versions.{StandsFor};

use crate::words::Words;
use pg_timeline::{Probes, Span};
use std::alloc::{AllocError, Global};
use std::marker::Model;

/// The values that a run's events left in memory, as far as they were noted: for each address, by
/// moments.
#[derive(Drop)]
pub struct Versions {
    alloc: Global,
    next: u64,
    words: Words,
}

impl Model for Versions {
    ghost use Rattle.std.specs.Prelude.{ℕ, nat_eq};
    ghost use Rattle.pg_timeline.specs.Keyed.{Keyed, EndsBefore};

    ghost Value = { Keyed ℕ ℕ };

    ghost view = { λ a. record { entries = a.words; next = a.next } };

    ghost invariant = { λ a. EndsBefore nat_eq a.words a.next };
}

impl Versions {
    /// Memory at the start of a run: all zero.
    pub fn new(alloc: Global) -> Versions
        ensures next { next_moment result ≡ 0 }
        ensures start { StandsFor result [] }
    {
        Versions {
            alloc,
            next: 0,
            words: Words::new(alloc),
        }
    }

    /// The least moment that a further event may have.
    pub fn next(&self) -> u64
        ensures { result ≡ next_moment self.now }
    {
        self.next
    }

    /// Notes that the event with this number left a value at an address. Fails where memory is
    /// refused, and then nothing is noted.
    pub fn note(&mut self, moment: u32, addr: u64, value: u64) -> Result<(), AllocError>
        requires { next_moment self.old ≤ moment }
        ensures ok { OnOk result (IsNoted self.old self.new moment addr value) }
        ensures err { OnErr result (IsSame self.old self.new) }
        ensures run { (events : List Event) (event : Event) → StandsFor self.old events →
            moment ≡ length events → Leaves events event addr value →
            OnOk result (StandsFor self.new (events ++ event ∷ [])) }
    {
        self.words.push(self.alloc, addr, moment, value)?;
        self.next = moment as u64 + 1;
        Ok(())
    }

    /// The value at a physical address just before the event with this number: what the last event
    /// below it left there, else 0.
    pub fn at(&self, moment: u32, addr: u64) -> u64
        ensures value { result ≡ value_at self.now moment addr }
        ensures memory { (events : List Event) → StandsFor self.now events →
            result ≡ mem_at events moment addr }
    {
        self.at_counted(moment, addr, &mut Probes::new())
    }

    /// What `at` gives, and counts the moments that were read.
    pub fn at_counted(&self, moment: u32, addr: u64, probes: &mut Probes) -> u64
        ensures value { result ≡ value_at self.now moment addr }
        ensures memory { (events : List Event) → StandsFor self.now events →
            result ≡ mem_at events moment addr }
        ensures probes { (probes.old ≤ probes.new) × (probes.new ≤ probes.old + 34) }
    {
        self.words.last_before(addr, moment, probes).unwrap_or(0)
    }

    /// What `at` gives, and the moments around this one at which the value is the same. It counts
    /// the moments that were read.
    pub fn span_at(&self, moment: u32, addr: u64, probes: &mut Probes) -> Span<u64>
        ensures value { IsSpan (λ w. value_at self.now w addr) moment result }
        ensures memory { (events : List Event) → StandsFor self.now events →
            IsSpan (λ w. mem_at events w addr) moment result }
        ensures probes { (probes.old ≤ probes.new) × (probes.new ≤ probes.old + 35) }
    {
        self.words.span_at(addr, moment, 0, probes)
    }

    /// Forgets the events from a moment on.
    pub fn forget_from(&mut self, moment: u32)
        ensures { IsCutAt self.old self.new moment }
    {
        self.words.forget_from(moment);
        self.next = self.next.min(moment as u64);
    }
}
