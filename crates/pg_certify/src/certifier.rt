//! Events judged one by one, each by moments that are guessed or, where guesses fail, searched.

ghost use Rattle.std.specs.Prelude.{◌≡◌, ◌<◌, ◌≤◌, true, length, None};
ghost use Rattle.std.specs.Prelude.{IfOk, IfSome, IfNone};
ghost use Rattle.pg_event.specs.Form.{broken_rule, processor_of};
ghost use Rattle.pg_check.specs.Judgements.{IfWitnessed};
ghost use Rattle.pg_search.specs.Law.{names_moments, AreWitness};
ghost use Rattle.pg_certify.specs.Certified.{IsFoundFor, IsUnwitnessed};

use crate::case::{Asks, Case, case_of, may_serve, page_of};
use crate::guesses::{Guesses, Part, Scope, key_of};
use crate::judging::Judging;
use crate::recent_lookups::RecentLookups;
use crate::walk::{
    Walk, address_by, first_moments, is_global, last_of, moments_fit, tables_up_to, walk_by,
};
use pg_check::Judgement;
use pg_entry::has_bit;
use pg_event::{Event, Moments, Reason};
use pg_search::{names_moments, with_moments};
use std::alloc::{AllocError, Global};
use std::marker::Model;

/// Whether moments witness all events of a run.
#[derive(Drop)]
pub enum Certified {
    /// They do: the events, each with moments that witness it.
    Yes(Vec<Event>),
    /// No moments witness the event with this number, and it is the least such.
    No(u64),
}

/// How far it is asked whether moments witness an event.
#[derive(Clone, Copy)]
enum Speed {
    /// As far as it is told quickly.
    Quick,
    /// As far as the past tells it.
    Whole,
}

/// A run, what was looked up of it, and moments that were found for its events.
#[derive(Drop)]
pub(crate) struct Certifier<J: Judging + Drop> {
    pub alloc: Global,
    pub judging: J,
    pub guesses: Guesses,
    pub recent: RecentLookups,
}

impl<J: Judging + Drop> Model for Certifier<J> {
    ghost use Rattle.pg_event.specs.Spelling.{Recorded};

    ghost Value = { Recorded };

    ghost view = { λ c. J.run c.judging };
}

impl<J: Judging + Drop> Certifier<J> {
    /// One that is to find moments for events of a run.
    pub(crate) fn new(alloc: Global, judging: J) -> Certifier<J>
        ensures { result ≡ J.run judging }
    {
        Certifier {
            alloc,
            judging,
            guesses: Guesses::new(alloc),
            recent: RecentLookups::new(alloc),
        }
    }

    /// The least reason by which these moments do not witness an event, or `None` where they do.
    /// Each event asks it, so that to copy the event with them once more would cost much.
    #[inline(always)]
    fn failing_by(&mut self, event: &Event, i: u32, moments: Moments) -> Option<Reason>
        requires { broken_rule self.old.head event.now ≡ None }
        ensures same { self.new ≡ self.old }
        ensures found { IfNone result
            (AreWitness self.old.head self.old.events i event.now moments) }
    {
        moments_fit(moments);
        let guessed = with_moments(event, moments);
        self.judging.failing(i, &guessed)
    }

    /// These moments, if they witness an event.
    fn judged(&mut self, event: &Event, i: u32, moments: Moments) -> Option<Moments>
        requires { broken_rule self.old.head event.now ≡ None }
        ensures same { self.new ≡ self.old }
        ensures found { IfSome result
            (AreWitness self.old.head self.old.events i event.now) }
    {
        match self.failing_by(event, i, moments) {
            None => Some(moments),
            Some(_) => None,
        }
    }

    /// Judges an event by these moments, if that is quick.
    #[inline(always)]
    fn judge_quickly(&mut self, event: &Event, i: u32, moments: Moments) -> Judgement
        requires { broken_rule self.old.head event.now ≡ None }
        ensures same { self.new ≡ self.old }
        ensures found { IfWitnessed result
            (AreWitness self.old.head self.old.events i event.now moments) }
    {
        moments_fit(moments);
        let guessed = with_moments(event, moments);
        match self.judging.judge_quickly(i, &guessed) {
            Judgement::Decided(found) => Judgement::Decided(found),
            Judgement::Unknown => Judgement::Unknown,
        }
    }

    /// Judges an event by these moments, as far as `speed` asks.
    #[inline(always)]
    fn judge_at(&mut self, event: &Event, i: u32, moments: Moments, speed: Speed) -> Judgement
        requires { broken_rule self.old.head event.now ≡ None }
        ensures same { self.new ≡ self.old }
        ensures found { IfWitnessed result
            (AreWitness self.old.head self.old.events i event.now moments) }
    {
        match speed {
            Speed::Quick => self.judge_quickly(event, i, moments),
            Speed::Whole => Judgement::Decided(self.failing_by(event, i, moments)),
        }
    }

    /// The moments that were found for a page, if they witness the event, as far as `speed` asks.
    /// Those whose translation was dropped are forgotten.
    #[inline(always)]
    fn judge_kept(
        &mut self,
        event: &Event,
        case: Case,
        scope: Scope,
        part: Part,
        speed: Speed,
    ) -> Option<Moments>
        requires { broken_rule self.old.head event.now ≡ None }
        ensures same { self.new ≡ self.old }
        ensures found { IfSome result
            (AreWitness self.old.head self.old.events case.i event.now) }
    {
        let key = key_of(case.p, scope, part, case.la);
        let moments = self.guesses.page(key, part)?;
        if last_of(&moments) < self.guesses.since(case.p, scope) {
            return None;
        }
        match self.judge_at(event, case.i, moments, speed) {
            Judgement::Decided(None) => Some(moments),
            Judgement::Decided(Some(reason)) => {
                self.guesses.note_failed(key, reason);
                None
            }
            Judgement::Unknown => None,
        }
    }

    /// The moments that were found for a large or a global page, if there is any of its kind and
    /// they witness the access, as far as `speed` asks.
    fn judge_rare(
        &mut self,
        event: &Event,
        case: Case,
        scope: Scope,
        part: Part,
        speed: Speed,
    ) -> Option<Moments>
        requires { broken_rule self.old.head event.now ≡ None }
        ensures same { self.new ≡ self.old }
        ensures found { IfSome result
            (AreWitness self.old.head self.old.events case.i event.now) }
    {
        if !self.guesses.has_any(scope, part) {
            return None;
        }
        self.judge_kept(event, case, scope, part, speed)
    }

    /// The moments that were found for the large or global page of an access, if they witness it,
    /// as far as `speed` asks.
    #[inline(never)]
    fn guess_rare(&mut self, event: &Event, case: Case, speed: Speed) -> Option<Moments>
        requires { broken_rule self.old.head event.now ≡ None }
        ensures same { self.new ≡ self.old }
        ensures found { IfSome result
            (AreWitness self.old.head self.old.events case.i event.now) }
    {
        if !matches!(case.asks, Asks::Page) || !self.guesses.has_rare() {
            return None;
        }
        let own = Scope::Page(case.pcid);
        if let Some(found) = self.judge_rare(event, case, own, Part::Of2M, speed) {
            return Some(found);
        }
        if let Some(found) = self.judge_rare(event, case, own, Part::Of1G, speed) {
            return Some(found);
        }
        if let Some(found) = self.judge_rare(event, case, Scope::GlobalPage, Part::Of4K, speed) {
            return Some(found);
        }
        if let Some(found) = self.judge_rare(event, case, Scope::GlobalPage, Part::Of2M, speed) {
            return Some(found);
        }
        self.judge_rare(event, case, Scope::GlobalPage, Part::Of1G, speed)
    }

    /// The moments that were found for the page of an access, if they witness it: that is asked
    /// where it was not told quickly.
    fn guess_known(&mut self, event: &Event, case: Case) -> Option<Moments>
        requires { broken_rule self.old.head event.now ≡ None }
        ensures same { self.new ≡ self.old }
        ensures found { IfSome result
            (AreWitness self.old.head self.old.events case.i event.now) }
    {
        if !matches!(case.asks, Asks::Page) {
            return None;
        }
        match self.judge_kept(
            event,
            case,
            Scope::Page(case.pcid),
            Part::Of4K,
            Speed::Whole,
        ) {
            Some(found) => Some(found),
            None => self.guess_rare(event, case, Speed::Whole),
        }
    }

    /// The moments of a walk as far as it reads a word, if they witness the assist.
    fn judge_word(&mut self, event: &Event, i: u32, word: u64, walk: &Walk) -> Option<Moments>
        requires { broken_rule self.old.head event.now ≡ None }
        ensures same { self.new ≡ self.old }
        ensures found { IfSome result
            (AreWitness self.old.head self.old.events i event.now) }
    {
        for level in 0..walk.moments.len() {
            if walk.words[level] == word {
                let moments = first_moments(&walk.moments, level + 1);
                if let Some(found) = self.judged(event, i, moments) {
                    return Some(found);
                }
            }
        }
        None
    }

    /// Keeps the moments of a walk by which an event was found.
    fn note_walk(&mut self, case: Case, walk: &Walk)
        requires { case.p < length self.old.head.processors }
        ensures { self.new ≡ self.old }
    {
        self.guesses
            .note_tables(case.p, case.pcid, case.la, &walk.moments);
        if matches!(case.asks, Asks::Page) {
            let global = is_global(&self.judging.seen(), case.p, walk);
            self.guesses
                .note_page(case.p, case.pcid, case.la, &walk.moments, global);
        }
    }

    /// The moments of a walk, or those up to the word of an assist, if they witness the event.
    pub(crate) fn judge_walk(&mut self, event: &Event, case: Case, walk: &Walk) -> Option<Moments>
        requires well { broken_rule self.old.head event.now ≡ None }
        requires processor { case.p < length self.old.head.processors }
        ensures same { self.new ≡ self.old }
        ensures found { IfSome result
            (AreWitness self.old.head self.old.events case.i event.now) }
    {
        let found = match case.asks {
            Asks::Page | Asks::Entry => self.judged(event, case.i, walk.moments),
            Asks::Word(word) => self.judge_word(event, case.i, word, walk),
        };
        if found.is_some() {
            self.note_walk(case, walk);
        }
        found
    }

    /// Whether a walk may witness an event: its page gives the answer, or its last entry is read at
    /// the event.
    pub(crate) fn is_likely(&self, event: &Event, case: Case, walk: &Walk) -> bool {
        match case.asks {
            Asks::Page => may_serve(event, address_by(&self.judging.seen(), walk, case.la)),
            Asks::Entry | Asks::Word(_) => last_of(&walk.moments) == case.i,
        }
    }

    /// The moments of a walk that reads its first entries at these moments, and what comes below at
    /// one moment, if they witness the event.
    pub(crate) fn guess_walk(
        &mut self,
        event: &Event,
        case: Case,
        front: &[u32],
        moment: u32,
    ) -> Option<Moments>
        requires well { broken_rule self.old.head event.now ≡ None }
        requires processor { case.p < length self.old.head.processors }
        ensures same { self.new ≡ self.old }
        ensures found { IfSome result
            (AreWitness self.old.head self.old.events case.i event.now) }
    {
        let walk = walk_by(
            &self.judging.seen(),
            &mut self.recent,
            case.p,
            case.la,
            front,
            moment,
        );
        if self.is_likely(event, case, &walk) {
            self.judge_walk(event, case, &walk)
        } else {
            None
        }
    }

    /// Moments by the walk that is read now.
    fn guess_now(&mut self, event: &Event, case: Case) -> Option<Moments>
        requires well { broken_rule self.old.head event.now ≡ None }
        requires processor { case.p < length self.old.head.processors }
        ensures same { self.new ≡ self.old }
        ensures found { IfSome result
            (AreWitness self.old.head self.old.events case.i event.now) }
    {
        let walk = walk_by(
            &self.judging.seen(),
            &mut self.recent,
            case.p,
            case.la,
            &[],
            case.i,
        );
        self.judge_walk(event, case, &walk)
    }

    /// Moments by the tables of the walk that was found last in the same part of the address
    /// space, and what lies below as it is read now, or by all moments of that walk.
    fn guess_near(&mut self, event: &Event, case: Case) -> Option<Moments>
        requires well { broken_rule self.old.head event.now ≡ None }
        requires processor { case.p < length self.old.head.processors }
        ensures same { self.new ≡ self.old }
        ensures found { IfSome result
            (AreWitness self.old.head self.old.events case.i event.now) }
    {
        let near = self.guesses.tables(case.p, case.pcid, case.la)?;
        for count in [3, 2, 4] {
            let tables = first_moments(&near, count);
            if let Some(found) = self.guess_walk(event, case, tables.as_slice(), case.i) {
                return Some(found);
            }
        }
        None
    }

    /// Moments for the access to a page by walks that read the entry from when on the page was
    /// mapped: whole, or by the tables that were found last near by, up to then.
    fn guess_mapped_at(&mut self, event: &Event, case: Case, moment: u32) -> Option<Moments>
        requires well { broken_rule self.old.head event.now ≡ None }
        requires processor { case.p < length self.old.head.processors }
        ensures same { self.new ≡ self.old }
        ensures found { IfSome result
            (AreWitness self.old.head self.old.events case.i event.now) }
    {
        if let Some(found) = self.guess_walk(event, case, &[], moment) {
            return Some(found);
        }
        let near = self.guesses.tables(case.p, case.pcid, case.la)?;
        let tables = tables_up_to(&near, moment);
        self.guess_walk(event, case, tables.as_slice(), moment)
    }

    /// Moments for the access to a page by those at which that was mapped last.
    fn guess_mapped(&mut self, event: &Event, case: Case, page: u64) -> Option<Moments>
        requires well { broken_rule self.old.head event.now ≡ None }
        requires processor { case.p < length self.old.head.processors }
        ensures same { self.new ≡ self.old }
        ensures found { IfSome result
            (AreWitness self.old.head self.old.events case.i event.now) }
    {
        let moments = self.guesses.mapped(self.judging.events(), case.i, page)?;
        for moment in moments {
            if moment > 0 {
                if let Some(found) = self.guess_mapped_at(event, case, moment) {
                    return Some(found);
                }
            }
        }
        None
    }

    /// Moments for the assist by the tables of the one that was found last in the same table.
    fn guess_assist(&mut self, event: &Event, case: Case, word: u64) -> Option<Moments>
        requires well { broken_rule self.old.head event.now ≡ None }
        requires processor { case.p < length self.old.head.processors }
        ensures same { self.new ≡ self.old }
        ensures found { IfSome result
            (AreWitness self.old.head self.old.events case.i event.now) }
    {
        let other = self.guesses.assist(case.p, case.pcid, word)?;
        let all = other.as_slice();
        self.guess_walk(event, case, &all[..all.len() - 1], case.i)
    }

    /// Moments by what searches of all moments have told.
    fn guess_learned(&mut self, event: &Event, case: Case) -> Option<Moments>
        requires well { broken_rule self.old.head event.now ≡ None }
        requires processor { case.p < length self.old.head.processors }
        ensures same { self.new ≡ self.old }
        ensures found { IfSome result
            (AreWitness self.old.head self.old.events case.i event.now) }
    {
        match case.asks {
            Asks::Word(word) => self.guess_assist(event, case, word),
            Asks::Entry => None,
            Asks::Page => match page_of(event) {
                Some(page) => self.guess_mapped(event, case, page),
                None => None,
            },
        }
    }

    /// Moments by walks that are made anew: now, near by, or earlier.
    fn guess_new(&mut self, event: &Event, case: Case) -> Option<Moments>
        requires well { broken_rule self.old.head event.now ≡ None }
        requires processor { case.p < length self.old.head.processors }
        ensures same { self.new ≡ self.old }
        ensures found { IfSome result
            (AreWitness self.old.head self.old.events case.i event.now) }
    {
        if let Some(found) = self.guess_now(event, case) {
            return Some(found);
        }
        if let Some(found) = self.guess_known(event, case) {
            return Some(found);
        }
        if let Some(found) = self.guess_near(event, case) {
            return Some(found);
        }
        match self.guess_learned(event, case) {
            Some(found) => Some(found),
            None => self.guess_back(event, case),
        }
    }

    /// Keeps the moments that a search found, and begins to look when frames are mapped.
    fn learn(&mut self, case: Case, moments: Moments)
        requires { case.p < length self.old.head.processors }
        ensures { self.new ≡ self.old }
    {
        let walk = walk_by(
            &self.judging.seen(),
            &mut self.recent,
            case.p,
            case.la,
            moments.as_slice(),
            case.i,
        );
        self.note_walk(case, &walk);
        if let Asks::Word(word) = case.asks {
            self.guesses.note_assist(case.p, case.pcid, word, moments);
        }
        self.guesses.look_for_frames(self.alloc);
    }

    /// Moments that witness the event, by a search of all that there are, or `None` where none do.
    fn search(&mut self, event: &Event, case: Case) -> Result<Option<Moments>, AllocError>
        requires well { broken_rule self.old.head event.now ≡ None }
        requires names { names_moments event.now ≡ true }
        requires within { case.i ≤ length self.old.events }
        requires processor { case.p < length self.old.head.processors }
        ensures same { self.new ≡ self.old }
        ensures found { IfOk result
            (λ r. IfSome r (AreWitness self.old.head self.old.events case.i event.now)) }
        ensures none { IfOk result
            (λ r. IfNone r (IsUnwitnessed self.old.head self.old.events case.i event.now)) }
    {
        let found = self.judging.search(self.alloc, case.i, event)?;
        let Some(moments) = found else {
            return Ok(None);
        };
        self.learn(case, moments);
        Ok(Some(moments))
    }

    /// Moments that witness an event, where those that were found for its page under its PCID do
    /// not, or `None` where none do. It is apart from what most events ask, so that these do not
    /// pay for its locals.
    #[inline(never)]
    fn find_other(&mut self, i: u32, event: &Event) -> Result<Option<Moments>, AllocError>
        requires well { broken_rule self.old.head event.now ≡ None }
        requires names { names_moments event.now ≡ true }
        requires within { i ≤ length self.old.events }
        ensures same { self.new ≡ self.old }
        ensures found { IfOk result
            (λ r. IfSome r (AreWitness self.old.head self.old.events i event.now)) }
        ensures none { IfOk result
            (λ r. IfNone r (IsUnwitnessed self.old.head self.old.events i event.now)) }
    {
        let Some(case) = case_of(&self.judging.seen(), &mut self.recent, i, event) else {
            unreachable!()
        };
        if let Some(found) = self.guess_rare(event, case, Speed::Quick) {
            return Ok(Some(found));
        }
        match self.guess_new(event, case) {
            Some(found) => Ok(Some(found)),
            None => self.search(event, case),
        }
    }

    /// The moments that were found for the 4-KB page of an access under its PCID, if they witness
    /// it.
    #[inline(always)]
    fn guess_own(&mut self, i: u32, event: &Event) -> Option<Moments>
        requires { broken_rule self.old.head event.now ≡ None }
        ensures same { self.new ≡ self.old }
        ensures found { IfSome result
            (AreWitness self.old.head self.old.events i event.now) }
    {
        let case = case_of(&self.judging.seen(), &mut self.recent, i, event)?;
        if matches!(case.asks, Asks::Page) {
            self.judge_kept(
                event,
                case,
                Scope::Page(case.pcid),
                Part::Of4K,
                Speed::Quick,
            )
        } else {
            None
        }
    }

    /// Moments that witness an event that names moments, or `None` where none do.
    #[inline(always)]
    fn find_moments(&mut self, i: u32, event: &Event) -> Result<Option<Moments>, AllocError>
        requires well { broken_rule self.old.head event.now ≡ None }
        requires names { names_moments event.now ≡ true }
        requires within { i ≤ length self.old.events }
        ensures same { self.new ≡ self.old }
        ensures found { IfOk result
            (λ r. IfSome r (AreWitness self.old.head self.old.events i event.now)) }
        ensures none { IfOk result
            (λ r. IfNone r (IsUnwitnessed self.old.head self.old.events i event.now)) }
    {
        match self.guess_own(i, event) {
            Some(moments) => Ok(Some(moments)),
            None => self.find_other(i, event),
        }
    }

    /// Takes note that an event dropped what its processor had for a PCID, or for any, but for
    /// global translations (Intel SDM, vol. 3, 4.10.4.1), or all.
    #[inline(never)]
    fn note_drop(&mut self, i: u32, event: &Event)
        requires { processor_of event.now < length self.old.head.processors }
        ensures { self.new ≡ self.old }
    {
        match *event {
            Event::MovCr3 { p, operand } => {
                if !has_bit(operand, 63) {
                    self.guesses.flush(i, p, (operand % 4096) as u16);
                }
            }
            Event::Invpcid { p, kind, pcid, .. } => match kind {
                0 => {}
                1 => self.guesses.flush(i, p, pcid),
                2 => self.guesses.flush_with_globals(i, p),
                _ => self.guesses.flush_all(i, p),
            },
            Event::MovCr4Pge { p, on } => {
                if self.judging.seen().control_at(p, i).pge != on {
                    self.guesses.flush_with_globals(i, p);
                }
            }
            Event::Write { .. }
            | Event::Access { .. }
            | Event::Assist { .. }
            | Event::Invlpg { .. } => {}
        }
    }

    /// Takes note of an event that drops all that its processor has for a PCID, or for any: few do.
    #[inline(always)]
    pub(crate) fn see(&mut self, i: u32, event: &Event)
        requires { processor_of event.now < length self.old.head.processors }
        ensures { self.new ≡ self.old }
    {
        match event {
            Event::MovCr3 { .. } | Event::Invpcid { .. } | Event::MovCr4Pge { .. } => {
                self.note_drop(i, event);
            }
            Event::Write { .. }
            | Event::Access { .. }
            | Event::Assist { .. }
            | Event::Invlpg { .. } => {}
        }
    }

    /// The event, as one with this number, with moments that witness it, which is itself where it
    /// names none, or `None` where no moments do. It is inlined, so that who does not ask for the
    /// event does not pay for a copy.
    #[inline(always)]
    pub(crate) fn find(&mut self, i: u32, event: &Event) -> Result<Option<Event>, AllocError>
        requires well { broken_rule self.old.head event.now ≡ None }
        requires within { i ≤ length self.old.events }
        ensures same { self.new ≡ self.old }
        ensures found { IfOk result
            (λ r. IfSome r (IsFoundFor self.old.head self.old.events i event.now)) }
        ensures names { IfOk result (λ r. IfNone r (names_moments event.now ≡ true)) }
        ensures none { IfOk result
            (λ r. IfNone r (IsUnwitnessed self.old.head self.old.events i event.now)) }
    {
        if !names_moments(event) {
            return Ok(Some(*event));
        }
        match self.find_moments(i, event)? {
            Some(moments) => {
                moments_fit(moments);
                Ok(Some(with_moments(event, moments)))
            }
            None => Ok(None),
        }
    }
}
