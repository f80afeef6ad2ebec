//! The control registers of a processor at the start of a run.

ghost use Rattle.std.specs.Prelude.{◌≡◌, ◌<◌, ◌^◌, slice_get};
ghost use Rattle.pg_event.specs.Values.{started};

use crate::spanned::SpannedRun;
use pg_event::{Control, loaded};

/// The control registers of a processor at the start. They are 0 for a number that none has.
pub fn started(run: &SpannedRun, p: u16) -> Control
    ensures value { result ≡ started run.now.head.cfg.m (slice_get run.now.head.processors p) }
    ensures within { result.root < 2 ^ 52 }
{
    let header = run.header();
    if (p as usize) < header.processors.len() {
        let start = header.processors[p as usize];
        loaded(header.cfg.m, start.0, start.1)
    } else {
        Control {
            root: 0,
            pcid: 0,
            pge: false,
        }
    }
}
