//! The processors' threads.

ghost use Rattle.std.specs.Prelude.{◌≡◌, ◌≢◌, ◌⊎◌, ◌↔◌, true, Err, IfErr, length};
ghost use Rattle.pg_runner.specs.Live.{IsWant};

use crate::error::RunError;
use crate::given::Naming;
use crate::live_judging::LiveJudging;
use crate::lookout::{Lookout, watch};
use crate::observer::Observer;
use crate::processor::run_processor;
use crate::shared::Shared;
use pg_guest::Script;
use pg_pool::Gate;
use pg_report::Crew;
use std::sync::atomic::AtomicU64;
use std::sync::{Mutex, Wait};
use std::thread;
use std::thread::Threads;

/// What threads met that were started and joined.
#[derive(Clone, Copy)]
enum Met {
    /// They ended, and each round beside them was judged.
    Nothing,
    /// One of them was refused memory.
    NoMemory,
    /// One of them was refused.
    NoThread,
}

/// What the processors' threads and the rounds beside them met, by the lowest number of what
/// occurred: `refused` where memory was in a processor's thread, `short` where such a thread was.
fn outcome(refused: bool, short: bool, live: Result<(), RunError>) -> Met
    requires { IfErr live IsWant }
    ensures memory { (result ≡ Met.NoMemory) ↔
        ((refused ≡ true) ⊎ (live ≡ Err RunError.Memory)) }
    ensures thread { (result ≡ Met.NoThread) ↔ ((result ≢ Met.NoMemory)
        × ((short ≡ true) ⊎ (live ≡ Err RunError.Thread))) }
{
    match live {
        Err(RunError::Memory) => Met::NoMemory,
        Err(RunError::Thread | RunError::Checkers) => {
            if refused {
                Met::NoMemory
            } else {
                Met::NoThread
            }
        }
        Ok(()) => {
            if refused {
                Met::NoMemory
            } else if short {
                Met::NoThread
            } else {
                Met::Nothing
            }
        }
    }
}

/// How many processors a script has: at most 1,024.
fn processor_count(script: &Script) -> u16
    ensures { result ≡ length script.now.head.processors }
{
    script.header().processors.len() as u16
}

/// Lets each processor of a script carry its instructions out in a thread of its own, if it has
/// any, and judges what they seal. All threads that were started are joined before it answers, also
/// where a thread was refused.
fn run_all<R: Threads + Wait + Sync, G: Gate, H: Gate, O: Observer, J: Naming + Send + Sync>(
    crew: &Crew<'_, R, H>,
    shared: &Mutex<Shared<'_, J>>,
    script: &Script,
    gate: &G,
    lookout: &mut Lookout<'_, O>,
    judging: &mut LiveJudging<J>,
) -> Met {
    let rt = crew.rt;
    let ended = AtomicU64::new(0);
    let ended = &ended;
    thread::scope(thread::scope_env(), rt, |scope| -> Met {
        let count = processor_count(script);
        let Ok(mut handles) = Vec::with_capacity(crew.alloc, count as usize) else {
            return Met::NoMemory;
        };
        let mut short = false;
        for p in 0..count {
            let instructions = script.instructions(p).len();
            if instructions == 0 {
                continue;
            }
            match scope.spawn(move || run_processor(rt, shared, p, instructions, ended, gate)) {
                Ok(handle) => handles.push_reserved(handle),
                Err(_) => {
                    short = true;
                    break;
                }
            }
        }
        let started = handles.len();
        let live = watch(crew, shared, lookout, ended, started as u64, judging);
        let mut refused = false;
        for handle in handles {
            refused = handle.join(rt) || refused;
        }
        outcome(refused, short, live)
    })
}

/// Runs all processors of a script, each that has instructions in a thread of its own, and judges
/// what they seal. It answers once all threads have ended, and says out of memory where memory and
/// a thread were refused.
pub(crate) fn run_processors<
    R: Threads + Wait + Sync,
    G: Gate,
    H: Gate,
    O: Observer,
    J: Naming + Send + Sync,
>(
    crew: &Crew<'_, R, H>,
    shared: &Mutex<Shared<'_, J>>,
    script: &Script,
    gate: &G,
    lookout: &mut Lookout<'_, O>,
    judging: &mut LiveJudging<J>,
) -> Result<(), RunError>
    ensures { IfErr result IsWant }
{
    match run_all(crew, shared, script, gate, lookout, judging) {
        Met::Nothing => Ok(()),
        Met::NoMemory => Err(RunError::Memory),
        Met::NoThread => Err(RunError::Thread),
    }
}
