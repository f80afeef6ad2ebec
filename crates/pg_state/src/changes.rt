//! The control registers of one processor, by moments.

ghost use Rattle.std.specs.Prelude.{◌≡◌, ◌+◌, ◌≤◌, ℕ, [], ◌∷◌, ◌++◌, OnOk, OnErr};
ghost use Rattle.std.specs.Option.{unwrap_or};
ghost use Rattle.pg_timeline.specs.Timelines.{end_of, last_before, cut_at, IsSpan};
ghost use Rattle.pg_timeline.specs.Keyed.{AreBelow};

use pg_event::Control;
use pg_timeline::{Probes, Span, Timeline};
use std::alloc::{AllocError, Global};
use std::marker::Model;

/// The registers that the changes of a processor left, by moments. The last stand by themselves,
/// since each access asks for them.
#[derive(Drop)]
pub(crate) struct Changes {
    latest: Option<Control>,
    all: Timeline<Control>,
}

impl Model for Changes {
    ghost use Rattle.std.specs.Prelude.{◌≡◌, ℕ, List};
    ghost use Rattle.pg_event.specs.declared.control.Control.{Control};
    ghost use Rattle.pg_timeline.specs.declared.timeline.Stamp.{Stamp};
    ghost use Rattle.pg_timeline.specs.Timelines.{last_before};
    ghost use Rattle.pg_timeline.specs.Keyed.{AreBelow};

    ghost Value = { List (Stamp Control) };

    ghost view = { λ c. c.all };

    ghost invariant = { λ c. (w : ℕ) → AreBelow w c.all → c.latest ≡ last_before w c.all };
}

impl Changes {
    /// There was none.
    pub(crate) fn new(alloc: Global) -> Changes
        ensures { result ≡ [] }
    {
        let all = Timeline::new(alloc);
        Changes {
            latest: all.last(),
            all,
        }
    }

    /// Adds registers from a moment on. Fails where memory is refused, and then nothing is added.
    pub(crate) fn push(&mut self, moment: u32, control: Control) -> Result<(), AllocError>
        requires { end_of self.old ≤ moment }
        ensures ok { OnOk result
            (self.new ≡ self.old ++ record { moment = moment; value = control } ∷ []) }
        ensures err { OnErr result (self.new ≡ self.old) }
    {
        self.all.push(moment, control)?;
        self.latest = self.all.last();
        Ok(())
    }

    /// The last registers, which every moment after their change reads.
    #[inline(always)]
    pub(crate) fn last(&self) -> Option<Control>
        ensures { (w : ℕ) → AreBelow w self.now → result ≡ last_before w self.now }
    {
        self.latest
    }

    /// The registers that the last change below a moment left.
    pub(crate) fn last_before(&self, moment: u32, probes: &mut Probes) -> Option<Control>
        ensures value { result ≡ last_before moment self.now }
        ensures probes { (probes.old ≤ probes.new) × (probes.new ≤ probes.old + 34) }
    {
        self.all.last_before(moment, probes)
    }

    /// What `last_before` gives, or other registers where there is no such change, and the moments
    /// around this one at which they are the same.
    pub(crate) fn span_at(&self, moment: u32, start: Control, probes: &mut Probes) -> Span<Control>
        ensures span { IsSpan (λ w. unwrap_or (last_before w self.now) start) moment result }
        ensures probes { (probes.old ≤ probes.new) × (probes.new ≤ probes.old + 35) }
    {
        self.all.span_at(moment, start, probes)
    }

    /// Forgets the changes from a moment on.
    pub(crate) fn forget_from(&mut self, moment: u32)
        ensures { self.new ≡ cut_at moment self.old }
    {
        self.all.forget_from(moment);
        self.latest = self.all.last();
    }
}
