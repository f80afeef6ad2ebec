ghost use Rattle.std.specs.Prelude.{◌≡◌};
ghost use Rattle.pg_reach.specs.Asking.{want_by};

use pg_event::{Event, Request, Want, want_of};
use pg_search::Lookup;

/// Who walks: a processor, for a linear byte address, under a PCID, before the event with a number;
/// and whether the freshest moments are asked for, and not any.
#[derive(Clone, Copy)]
pub(crate) struct Walker {
    pub p: u16,
    pub la: u64,
    pub pcid: u16,
    pub number: u32,
    pub freshest: bool,
}

impl Walker {
    /// What the walker's processor looks up in its caches.
    pub(crate) fn lookup(&self) -> Lookup
        ensures { result ≡ record { p = self.now.p; pcid = self.now.pcid; la = self.now.la } }
    {
        Lookup {
            p: self.p,
            pcid: self.pcid,
            la: self.la,
        }
    }
}

/// What an event that names moments wants of the entry that it reads last; of others nothing is
/// said.
pub(crate) fn want_by(event: &Event) -> Want
    ensures { result ≡ want_by event.now }
{
    match event.request() {
        Request::Access { outcome, .. } => want_of(outcome),
        Request::Update { .. } | Request::Nothing => Want::Present,
    }
}
