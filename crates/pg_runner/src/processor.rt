//! A processor's thread.

ghost use Rattle.std.specs.Prelude.{◌≢◌};

use crate::given::Naming;
use crate::shared::Shared;
use pg_guest::{Advance, Stop};
use pg_pool::Gate;
use std::sync::atomic::{AtomicU64, Ordering};
use std::sync::{Mutex, Wait};

/// How a processor's thread left an instruction.
#[derive(Clone, Copy)]
pub(crate) enum Left {
    /// It was carried out.
    Done,
    /// Running out of memory stopped a turn.
    Refused,
    /// There is nothing to go on with: the processor has ended, or the record is full.
    Over,
}

/// One turn, in one hold of the lock. What else it leaves is told by nothing but the board's type,
/// since whoever takes the lock next may change it.
fn locked_turn<R: Wait, J: Naming>(rt: &R, shared: &Mutex<Shared<'_, J>>, p: u16) -> Advance
    ensures { result ≢ Advance.Stopped Stop.Finished }
{
    shared.lock(rt).turn(p)
}

/// Turns of a processor, until one carries its next instruction out.
fn carry_out<R: Wait, J: Naming>(rt: &R, shared: &Mutex<Shared<'_, J>>, p: u16) -> Left {
    for _ in rt.forever() {
        match locked_turn(rt, shared, p) {
            Advance::Read(_) | Advance::Assisted(_) => {}
            Advance::Done(_) => return Left::Done,
            Advance::Ended => return Left::Over,
            Advance::Stopped(Stop::Memory) => return Left::Refused,
            Advance::Stopped(Stop::Full) => return Left::Over,
            Advance::Stopped(Stop::Finished) => unreachable!(),
        }
    }
    unreachable!()
}

/// Carries so many instructions of a processor out, each through the gate, which is called outside
/// the lock. Says whether memory was refused.
fn carry_all<R: Wait, G: Gate, J: Naming>(
    rt: &R,
    shared: &Mutex<Shared<'_, J>>,
    p: u16,
    instructions: usize,
    gate: &G,
) -> bool {
    for number in 0..instructions {
        gate.enter(p as u32, number as u64);
        let left = carry_out(rt, shared, p);
        gate.leave(p as u32, number as u64);
        match left {
            Left::Done => {}
            Left::Refused => return true,
            Left::Over => return false,
        }
    }
    false
}

/// What a processor's thread does: it counts itself among those that have ended once it has.
pub(crate) fn run_processor<R: Wait, G: Gate, J: Naming>(
    rt: &R,
    shared: &Mutex<Shared<'_, J>>,
    p: u16,
    instructions: usize,
    ended: &AtomicU64,
    gate: &G,
) -> bool {
    let refused = carry_all(rt, shared, p, instructions, gate);
    ended.fetch_add(1, Ordering::SeqCst);
    refused
}
