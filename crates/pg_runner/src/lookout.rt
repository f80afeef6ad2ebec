//! The calling thread, while processors run.

ghost use Rattle.std.specs.Prelude.{◌≡◌, IfErr};
ghost use Rattle.pg_runner.specs.Seats.{IsNotBelow};
ghost use Rattle.pg_runner.specs.Live.{IsWant};

use crate::counts::Counts;
use crate::error::RunError;
use crate::given::Naming;
use crate::live_judging::LiveJudging;
use crate::observer::Observer;
use crate::progress::Progress;
use crate::reader::ReadSeat;
use crate::shared::Shared;
use crossbeam_utils::Backoff;
use pg_pool::Gate;
use pg_report::Crew;
use std::sync::atomic::{AtomicU64, Ordering};
use std::sync::{Mutex, Wait};
use std::thread::Threads;

/// Where the calling thread sees how far the processors have come, without their lock, and lets an
/// observer see it. The observer was told no more than was read.
#[derive(Drop)]
pub(crate) struct Lookout<'a, O: Observer> {
    progress: &'a Progress,
    seat: ReadSeat,
    observer: O,
    ghost own: { seat.word ≡ progress.now },
    ghost told: { IsNotBelow (O.told observer) seat.last },
}

impl<'a, O: Observer> Lookout<'a, O> {
    pub(crate) fn new(progress: &'a Progress, seat: ReadSeat, observer: O) -> Lookout<'a, O>
        requires own { seat.word ≡ progress.now }
        requires told { O.told observer ≡ seat.last }
    {
        Lookout {
            progress,
            seat,
            observer,
        }
    }

    fn look(&mut self) -> Counts {
        let counts = self.progress.read(&mut self.seat);
        self.observer.see(counts);
        counts
    }
}

/// Judges segments as they are sealed, until so many threads have ended, and looks once more then.
/// After an error there is no further round, and no further look.
pub(crate) fn watch<R: Threads + Wait + Sync, H: Gate, O: Observer, J: Naming>(
    crew: &Crew<'_, R, H>,
    shared: &Mutex<Shared<'_, J>>,
    lookout: &mut Lookout<'_, O>,
    ended: &AtomicU64,
    started: u64,
    judging: &mut LiveJudging<J>,
) -> Result<(), RunError>
    ensures { IfErr result IsWant }
{
    let backoff = Backoff::new();
    for _ in crew.rt.forever() {
        let is_over = ended.load(Ordering::SeqCst) >= started;
        let segments = lookout.look().segments;
        if is_over {
            return Ok(());
        }
        if segments as u64 > judging.segments() {
            if let Err(e) = judging.judge_round(crew, shared) {
                return Err(e);
            }
            backoff.reset();
        } else {
            backoff.snooze();
        }
    }
    unreachable!()
}
