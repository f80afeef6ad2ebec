ghost use Rattle.std.specs.Prelude.{◌≡◌, ◌<◌, ◌≤◌, List};
ghost use Rattle.pg_event.specs.declared.event.Event.{Event};
ghost use Rattle.pg_event.specs.Heads.{Head};
ghost use Rattle.pg_event.specs.Witness.{is_updated, failing_assist};
ghost use Rattle.pg_chain.specs.Standing.{IsPast, processor_count};
ghost use Rattle.pg_chain.specs.Walked.{reading_of};
ghost use Rattle.pg_check.specs.Ends.{failing_marks};

use crate::memo::Memo;
use crate::walk::walk;
use pg_chain::{Chain, EntryRead};
use pg_entry::{Cfg, Entry, classify};
use pg_event::{Moments, Reason, Update, Want, may_dirty};

/// Whether an entry that is read last is the one that an assist names, at its own event, and may be
/// made dirty where the assist does so.
fn is_updated(cfg: Cfg, update: &Update, end: EntryRead) -> bool
    requires { (36 ≤ cfg.m) × (cfg.m ≤ 52) }
    ensures { result ≡ is_updated cfg update.now (reading_of end) }
{
    let kind = classify(cfg, end.level, Entry(end.value));
    end.moment == update.number
        && update.word == end.address
        && (!update.dirty || may_dirty(cfg, update.kind, end.rights, kind))
}

/// The reasons of an assist by its walk.
fn failing_marks(cfg: Cfg, update: &Update, chain: Chain) -> Option<Reason>
    requires { (36 ≤ cfg.m) × (cfg.m ≤ 52) }
    ensures { result ≡ failing_marks cfg update.now chain }
{
    if !chain.tables {
        Some(Reason::Accessed)
    } else if is_updated(cfg, update, chain.end) {
        None
    } else {
        Some(Reason::Assist)
    }
}

/// The least reason that fails for an assist with these moments.
pub(crate) fn failing_assist(
    memo: &mut Memo<'_>,
    update: &Update,
    moments: &Moments,
) -> Option<Reason>
    requires { update.now.p < processor_count memo.old }
    ensures past { memo.new ≡ memo.old }
    ensures failing { (head : Head) (events : List Event) → IsPast memo.old head events →
        result ≡ failing_assist head events update.now moments.now }
{
    match walk(
        memo,
        update.number,
        update.p,
        update.la,
        moments,
        Want::Present,
    ) {
        Ok(chain) => failing_marks(memo.past().cfg(), update, chain),
        Err(reason) => Some(reason),
    }
}
