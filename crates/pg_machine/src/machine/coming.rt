//! What lacks for an event to come.

ghost use Rattle.std.specs.Prelude.{◌≡◌, ◌<◌, length, None, Some};
ghost use Rattle.pg_event.specs.Form.{processor_of};
ghost use Rattle.pg_machine.specs.Stepping.{stuck_access, stuck_assist, stuck_coming, lacking};

use super::Machine;
use crate::sought::Sought;
use crate::stuck::Stuck;
use pg_entry::AccessKind;
use pg_event::{Event, Outcome, Request, Want, processor_of, want_of};

impl Machine {
    /// Why an event cannot come: an access needs what gives its outcome, an assist its entry.
    pub(super) fn stuck_coming(&self, event: &Event) -> Option<Stuck>
        requires { processor_of event.now < length self.now.processors }
        ensures { result ≡ stuck_coming self.now event.now }
    {
        let p = processor_of(event);
        match event.request() {
            Request::Nothing => None,
            Request::Access {
                kind,
                la,
                outcome,
                ..
            } => self.stuck_access(p, kind, la, outcome),
            Request::Update {
                kind,
                la,
                word,
                dirty,
                ..
            } => {
                let sought = Sought::Word {
                    access: kind,
                    word,
                    with_dirty: dirty,
                };
                self.stuck_assist(p, la, sought)
            }
        }
    }

    fn stuck_access(&self, p: u16, access: AccessKind, la: u64, outcome: Outcome) -> Option<Stuck>
        requires { p < length self.now.processors }
        ensures { result ≡ stuck_access self.now p access la outcome }
    {
        let processor = self.processor(p);
        if processor.has_outcome(&self.header, &self.memory, access, la, outcome) {
            None
        } else {
            Some(lacking(want_of(outcome)))
        }
    }

    fn stuck_assist(&self, p: u16, la: u64, sought: Sought) -> Option<Stuck>
        requires { p < length self.now.processors }
        ensures { result ≡ stuck_assist self.now p la sought }
    {
        let processor = self.processor(p);
        if processor.finds(self.cfg(), &self.memory, la, sought) {
            None
        } else {
            Some(Stuck::Entry)
        }
    }
}

/// What lacks where an access cannot come to an outcome that wants this.
fn lacking(want: Want) -> Stuck
    ensures { result ≡ lacking want }
{
    match want {
        Want::Leaf => Stuck::Translation,
        Want::Absent | Want::Reserved | Want::Present => Stuck::Entry,
    }
}
