//! The events of one window of a run, judged one by one as they come.

ghost use Rattle.std.specs.Prelude.{◌≡◌, ◌+◌, ◌<◌, ◌^◌, ◌++◌, length, map, IfOk, OnOk, OnErr};
ghost use Rattle.pg_check.specs.Kept.{AreWellFormed};
ghost use Rattle.pg_search.specs.Changes.{kept_of};
ghost use Rattle.pg_certify.specs.Windows.{BeginsWith, IsFirstDenied, with_window};

use crate::certifier::Certifier;
use pg_event::Event;
use pg_search::KeptRun;
use std::alloc::AllocError;

/// The place of the first event of a window that no moments witness. What changes something in the
/// window is kept, also after that event.
pub(crate) fn first_denied_in(
    certifier: &mut Certifier<KeptRun>,
    window: &[Event],
) -> Result<Option<usize>, AllocError>
    requires well { AreWellFormed certifier.old.head window.now }
    requires room { length certifier.old.events + length window.now < 2 ^ 32 }
    ensures kept { OnOk result (certifier.new ≡ with_window certifier.old window.now) }
    ensures denied { IfOk result (IsFirstDenied certifier.old.head
        (certifier.old.events ++ map kept_of window.now) (length certifier.old.events) window.now) }
    ensures err { OnErr result (BeginsWith certifier.old certifier.new) }
{
    let first = certifier.len() as u32;
    for (i, event) in window.iter().enumerate() {
        let number = first + i as u32;
        match certifier.find(number, event)? {
            Some(_) => {
                certifier.see(number, event);
                certifier.keep(event)?;
            }
            None => {
                certifier.keep_rest(&window[i..])?;
                return Ok(Some(i));
            }
        }
    }
    Ok(None)
}
