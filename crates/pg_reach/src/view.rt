//! What a search sees of a run.

ghost use Rattle.std.specs.Prelude.{◌≡◌, ◌<◌, ◌≤◌, ◌^◌, ◌+◌, ◌&&◌, ℕ, min, max, length};
ghost use Rattle.std.specs.Prelude.{List, IfOk, OnOk, IfSome};
ghost use Rattle.std.specs.List.{All};
ghost use Rattle.pg_entry.specs.Kinds.{kind_of};
ghost use Rattle.std.specs.Prelude.{None};
ghost use Rattle.pg_event.specs.Form.{broken_rule};
ghost use Rattle.pg_event.specs.Wants.{is_table};
ghost use Rattle.pg_chain.specs.Standing.{IsPast};
ghost use Rattle.pg_search.specs.Law.{AreWitness};
ghost use Rattle.pg_machine.specs.Machine.{may_cache};
ghost use Rattle.pg_inval.specs.Drops.{IsTableLevel};
ghost use Rattle.pg_reach.specs.Stays.{AreSpansUnder};
ghost use Rattle.pg_reach.specs.Reaching.{IsPiece, IsReach, IsNextReach, IsFilled, AreBelow};
ghost use Rattle.pg_reach.specs.Reaching.{AreRoots};
ghost use Rattle.pg_reach.specs.Reaching.{IsFresher};
ghost use Rattle.pg_reach.specs.Ends.{IsNoEnd, AreRefused};

use crate::reach::{Reach, is_enough, up_to};
use crate::reaches::Reaches;
use crate::stays::{latest_of, stays_of};
use crate::walker::{Walker, want_by};
use pg_check::{Memo, failing};
use pg_entry::{Entry, Kind, Level, classify, combine, table_of};
use pg_event::{
    Control, Event, Header, Moments, Parent, entry_address, is_wanted, may_cache, root_of,
};
use pg_search::{Seen, with_moments};
use pg_timeline::Span;
use std::alloc::{AllocError, Global};
use std::marker::Model;

/// What a table has for an address from a moment on.
#[derive(Clone, Copy)]
pub(crate) struct Piece {
    /// The last moment up to which it has this.
    pub to: u32,
    pub entry: u64,
    /// The last of these moments at which a walk may read it, if there is one.
    pub read: Option<u32>,
}

/// A run, who walks in it and for which event, and when its processor has the PCID from a moment
/// on.
#[derive(Drop)]
pub(crate) struct View<'a> {
    pub seen: &'a Seen<'a>,
    pub event: &'a Event,
    pub walker: Walker,
    low: u32,
    pub stays: Vec<Span<Control>>,
}

impl<'a> Model for View<'a> {
    ghost use Rattle.pg_event.specs.Spelling.{Recorded};
    ghost use Rattle.pg_reach.specs.Views.{Viewed};
    ghost use Rattle.pg_reach.specs.Stays.{AreStays};

    ghost Value = { Viewed };

    ghost view = { λ v. record {
      run = v.seen.now;
      event = v.event.now;
      walker = v.walker;
      low = v.low;
    } };

    ghost invariant = { λ v. AreStays v.seen.now v.walker v.low v.stays.items };
}

/// Whether an entry refers to a table and may be cached.
fn leads_on(header: &Header, level: Level, entry: Entry) -> bool
    requires { (36 ≤ header.now.cfg.m) × (header.now.cfg.m ≤ 52) }
    ensures { result ≡ (is_table (kind_of header.now.cfg level entry.0)
        && may_cache header.now.version entry.0) }
{
    let is_table = matches!(classify(header.cfg, level, entry), Kind::Table { .. });
    is_table && may_cache(header.version, entry)
}

impl<'a> View<'a> {
    /// That of a walker for an event, by the control registers of its processor at the moments from
    /// one on, or at those of them at which it has the PCID.
    pub(crate) fn new(
        alloc: Global,
        seen: &'a Seen<'a>,
        event: &'a Event,
        walker: Walker,
        low: u32,
        spans: &[Span<Control>],
    ) -> Result<View<'a>, AllocError>
        requires { AreSpansUnder seen.now walker low spans.now }
        ensures { IfOk result (λ v. v ≡ record {
          run = seen.now;
          event = event.now;
          walker = walker;
          low = low;
        }) }
    {
        let stays = stays_of(alloc, spans, walker.pcid)?;
        Ok(View {
            seen,
            event,
            walker,
            low,
            stays,
        })
    }

    /// What a table has from a moment on, but not after the last.
    pub(crate) fn piece_at(&self, level: Level, table: Parent, at: u32, last: u32) -> Piece
        requires low { self.now.low ≤ at }
        requires order { at ≤ last }
        requires within { last ≤ self.now.walker.number }
        requires table { table.table < 2 ^ 52 }
        ensures { IsPiece self.now.run self.now.walker level table at last result }
    {
        let walker = &self.walker;
        let span = self
            .seen
            .value_span(at, entry_address(table.table, level, walker.la));
        let to = span.to.min(last);
        Piece {
            to,
            entry: span.value,
            read: latest_of(&self.stays, at, to),
        }
    }

    /// The table that an entry refers to which stands in the table of a reach, if it may be cached:
    /// a walk may read in it from a moment on, and the last at which it may read the entry is
    /// `read`.
    fn next(&self, level: Level, x: &Reach, entry: Entry, from: u32, read: u32) -> Option<Reach>
        requires level { IsTableLevel level }
        requires few { length x.now.latest ≤ 3 }
        ensures { IsNextReach self.now.run self.now.walker level x.now entry.0 from read result }
    {
        let header = self.seen.header();
        if !leads_on(header, level, entry) {
            return None;
        }
        let latest = up_to(read, &x.latest);
        Some(Reach {
            from,
            to: self.seen.structure_end(self.walker.lookup(), level, read),
            table: Parent {
                table: table_of(header.cfg.m, entry),
                rights: combine(x.table.rights, entry),
            },
            latest: latest.with(u32::MAX)?,
        })
    }

    /// Adds the table that the entry of a piece of the table of a reach gives, from a moment on.
    fn add_table(
        &self,
        level: Level,
        x: &Reach,
        at: u32,
        piece: &Piece,
        nexts: &mut Reaches,
    ) -> Result<(), AllocError>
        requires level { IsTableLevel level }
        requires reach { IsReach self.now.run self.now.walker level x.now }
        requires low { x.now.from ≤ at }
        requires piece { IsPiece self.now.run self.now.walker level x.now.table at x.now.to
            piece.now }
        ensures { OnOk result (IsFilled self.now.run self.now.walker level at (piece.now.to + 1)
            x.now nexts.old nexts.new) }
    {
        let Some(read) = piece.read else {
            return Ok(());
        };
        match self.next(level, x, Entry(piece.entry), at, read) {
            Some(next) => nexts.add(self.walker.freshest, next),
            None => Ok(()),
        }
    }

    /// Adds the tables that reading in the table of a reach from a moment on leads to.
    fn add_tables(
        &self,
        level: Level,
        low: u32,
        x: &Reach,
        nexts: &mut Reaches,
    ) -> Result<(), AllocError>
        requires level { IsTableLevel level }
        requires low { self.now.low ≤ low }
        requires reach { IsReach self.now.run self.now.walker level x.now }
        ensures { OnOk result (IsFilled self.now.run self.now.walker level (max x.now.from low)
            (min x.now.to self.now.walker.number + 1) x.now nexts.old nexts.new) }
    {
        let last = x.to.min(self.walker.number);
        let mut at = x.from.max(low);
        while at <= last {
            let piece = self.piece_at(level, x.table, at, last);
            self.add_table(level, x, at, &piece, nexts)?;
            match piece.to.checked_add(1) {
                Some(next) => at = next,
                None => return Ok(()),
            }
        }
        Ok(())
    }

    /// The tables at the level below one to which reading from a moment on leads, in the tables of
    /// reaches at that level. Fails where memory is refused.
    pub(crate) fn tables_below(
        &self,
        alloc: Global,
        level: Level,
        low: u32,
        above: &[Reach],
    ) -> Result<Reaches, AllocError>
        requires level { IsTableLevel level }
        requires low { self.now.low ≤ low }
        requires each { All (IsReach self.now.run self.now.walker level) above.now }
        ensures { IfOk result (AreBelow self.now.run self.now.walker level low above.now) }
    {
        let mut nexts = Reaches::new(alloc);
        for x in above {
            self.add_tables(level, low, x, &mut nexts)?;
        }
        Ok(nexts)
    }

    /// The root tables. Fails where memory is refused.
    pub(crate) fn roots(&self, alloc: Global) -> Result<Reaches, AllocError>
        ensures { IfOk result (AreRoots self.now.run self.now.walker self.now.low) }
    {
        let mut roots = Reaches::new(alloc);
        for stay in &self.stays {
            let root = Reach {
                from: stay.from,
                to: stay.to,
                table: root_of(stay.value),
                latest: Moments::first(u32::MAX),
            };
            roots.add(self.walker.freshest, root)?;
        }
        Ok(roots)
    }

    /// The moments with which the event is witnessed that reads a piece of the table of a reach
    /// last, or those that were found before, where these are enough.
    fn end_by(
        &self,
        memo: &mut Memo<'_>,
        level: Level,
        x: &Reach,
        piece: &Piece,
        found: Option<Moments>,
    ) -> Option<Moments>
        requires past { IsPast memo.old self.now.run.head self.now.run.events }
        requires well { broken_rule self.now.run.head self.now.event ≡ None }
        requires some { IfSome found (AreWitness self.now.run.head self.now.run.events
            self.now.walker.number self.now.event) }
        ensures memo { memo.new ≡ memo.old }
        ensures some { IfSome result (AreWitness self.now.run.head self.now.run.events
            self.now.walker.number self.now.event) }
        ensures fresher { (ws : List ℕ) → IsFresher self.now.walker.freshest found ws →
            IsFresher self.now.walker.freshest result ws }
        ensures none { IsNoEnd self.now.run self.now.walker self.now.event level x.now piece.now
            result }
    {
        let Some(read) = piece.read else {
            return found;
        };
        let kind = classify(self.seen.header().cfg, level, Entry(piece.entry));
        if !is_wanted(want_by(self.event), kind) {
            return found;
        }
        let moments = up_to(read, &x.latest);
        if is_enough(self.walker.freshest, &found, &moments) {
            return found;
        }
        match failing(memo, self.walker.number, &with_moments(self.event, moments)) {
            None => Some(moments),
            Some(_) => found,
        }
    }

    /// The moments with which the event is witnessed that reads the table of a reach last, from a
    /// moment on, or those that were found before, where these are enough.
    fn end_in(
        &self,
        memo: &mut Memo<'_>,
        level: Level,
        since: u32,
        x: &Reach,
        found: Option<Moments>,
    ) -> Option<Moments>
        requires past { IsPast memo.old self.now.run.head self.now.run.events }
        requires well { broken_rule self.now.run.head self.now.event ≡ None }
        requires low { self.now.low ≤ since }
        requires within { x.now.table.table < 2 ^ 52 }
        requires small { self.now.walker.number < 2 ^ 32 }
        requires some { IfSome found (AreWitness self.now.run.head self.now.run.events
            self.now.walker.number self.now.event) }
        ensures memo { memo.new ≡ memo.old }
        ensures some { IfSome result (AreWitness self.now.run.head self.now.run.events
            self.now.walker.number self.now.event) }
        ensures fresher { (ws : List ℕ) → IsFresher self.now.walker.freshest found ws →
            IsFresher self.now.walker.freshest result ws }
        ensures none { AreRefused self.now.run self.now.walker self.now.event level
            (max x.now.from since) (min x.now.to self.now.walker.number + 1) x.now result }
    {
        let last = x.to.min(self.walker.number);
        let most = up_to(last, &x.latest);
        let mut best = found;
        let mut at = x.from.max(since);
        while at <= last {
            if is_enough(self.walker.freshest, &best, &most) {
                return best;
            }
            let piece = self.piece_at(level, x.table, at, last);
            best = self.end_by(memo, level, x, &piece, best);
            match piece.to.checked_add(1) {
                Some(next) => at = next,
                None => return best,
            }
        }
        best
    }

    /// The moments with which the event is witnessed that reads the table of one of some reaches
    /// last, from a moment on, or those that were found before, where these are enough.
    pub(crate) fn end_among(
        &self,
        memo: &mut Memo<'_>,
        level: Level,
        since: u32,
        reaches: &[Reach],
        found: Option<Moments>,
    ) -> Option<Moments>
        requires past { IsPast memo.old self.now.run.head self.now.run.events }
        requires well { broken_rule self.now.run.head self.now.event ≡ None }
        requires low { self.now.low ≤ since }
        requires each { All (IsReach self.now.run self.now.walker level) reaches.now }
        requires small { self.now.walker.number < 2 ^ 32 }
        requires some { IfSome found (AreWitness self.now.run.head self.now.run.events
            self.now.walker.number self.now.event) }
        ensures memo { memo.new ≡ memo.old }
        ensures some { IfSome result (AreWitness self.now.run.head self.now.run.events
            self.now.walker.number self.now.event) }
        ensures fresher { (ws : List ℕ) → IsFresher self.now.walker.freshest found ws →
            IsFresher self.now.walker.freshest result ws }
        ensures none { All (λ x. AreRefused self.now.run self.now.walker self.now.event level
            (max x.from since) (min x.to self.now.walker.number + 1) x result) reaches.now }
    {
        let mut best = found;
        for x in reaches {
            best = self.end_in(memo, level, since, x, best);
        }
        best
    }
}
