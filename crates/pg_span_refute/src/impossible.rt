//! What an access or an assist comes to in no run, whatever stands in memory and in the caches.

ghost use Rattle.std.specs.Prelude.{◌≡◌, ℕ, IfSome, IfNone};
ghost use Rattle.pg_span_refute.specs.Impossible.{is_ever_denied, is_code_of, may_come_to};
ghost use Rattle.pg_span_refute.specs.Impossible.{may_read_at, may_update, may_be_given};
ghost use Rattle.pg_span_refute.specs.Impossible.{NoMemoryGives, IsFirstNotGiven, least_rights};

use pg_entry::{AccessKind, Cause, Cfg, Level, Rights, allowed, error_code};
use pg_event::{Event, Outcome, access_kind, entry_address, says_dirty};
use pg_span_run::SpannedRun;

/// What is 2 to the power of 12: tables and pages lie at multiples of it.
const PAGE: u64 = 4096;

/// The rights that allow least, of an address that is user-mode or not.
fn least_rights(user: bool) -> Rights
    ensures { result ≡ least_rights user }
{
    Rights {
        write: false,
        user,
        xd: true,
    }
}

/// Whether some rights deny an access (Intel SDM, vol. 3, 4.6.1).
fn is_ever_denied(cfg: Cfg, access: AccessKind) -> bool
    ensures { result ≡ is_ever_denied cfg access }
{
    !allowed(cfg, least_rights(false), access) || !allowed(cfg, least_rights(true), access)
}

/// Whether an access may fault by a cause, and with this code (4.7).
fn is_code_of(cfg: Cfg, access: AccessKind, code: u16, cause: Cause) -> bool
    ensures { result ≡ is_code_of cfg access code cause }
{
    let is_its_code = code == error_code(cfg, access, cause);
    match cause {
        Cause::Absent | Cause::Reserved => is_its_code,
        Cause::Denied => is_its_code && is_ever_denied(cfg, access),
    }
}

/// Whether an access may come to an outcome in some memory.
fn may_come_to(cfg: Cfg, access: AccessKind, la: u64, outcome: Outcome) -> bool
    ensures { result ≡ may_come_to cfg access la outcome }
{
    match outcome {
        Outcome::Page(page) => page % PAGE == la % PAGE,
        Outcome::Fault(code) => {
            is_code_of(cfg, access, code, Cause::Absent)
                || is_code_of(cfg, access, code, Cause::Reserved)
                || is_code_of(cfg, access, code, Cause::Denied)
        }
    }
}

/// Whether a walk for an address reads a word at this level in some table (4.5).
fn may_read_at(la: u64, word: u64, level: Level) -> bool
    ensures { result ≡ may_read_at la word level }
{
    word % PAGE == entry_address(0, level, la)
}

/// Whether a walk for an address reads a word at some level, and where D is set not at level 4.
fn may_update(la: u64, word: u64, with_dirty: bool) -> bool
    ensures { result ≡ may_update la word with_dirty }
{
    (!with_dirty && may_read_at(la, word, Level::Four))
        || may_read_at(la, word, Level::Three)
        || may_read_at(la, word, Level::Two)
        || may_read_at(la, word, Level::One)
}

/// Whether some memory gives an event: not an access with a code or an offset that none gives it,
/// nor an assist of a word that no walk for its address reads (Intel SDM, vol. 3, 4.5 to 4.8).
pub fn may_be_given(cfg: Cfg, event: &Event) -> bool
    ensures { result ≡ may_be_given cfg event.now }
{
    match *event {
        Event::Access {
            flags,
            la,
            outcome,
            ..
        } => may_come_to(cfg, access_kind(flags), la, outcome),
        Event::Assist {
            flags,
            la,
            word,
            ..
        } => may_update(la, word, says_dirty(flags)),
        Event::Write { .. }
        | Event::MovCr3 { .. }
        | Event::Invlpg { .. }
        | Event::Invpcid { .. }
        | Event::MovCr4Pge { .. } => true,
    }
}

/// The least event, by its number, that no memory gives: an access with an address whose offset in
/// its page is another, or a page fault with a code that no cause gives such an access (Intel SDM,
/// vol. 3, 4.5 to 4.7); or an assist of a word that no walk for its address reads (4.8). So in no
/// order a run of the machine comes to it. It takes one pass over the events.
pub fn first_not_given(run: &SpannedRun) -> Option<u32>
    ensures found { IfSome result (IsFirstNotGiven run.now) }
    ensures none { IfNone result ((i : ℕ) → NoMemoryGives run.now i → ⊥) }
{
    let cfg = run.header().cfg;
    for (number, event) in run.events().iter().enumerate() {
        if !may_be_given(cfg, event) {
            return Some(number as u32);
        }
    }
    None
}
