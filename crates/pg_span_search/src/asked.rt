//! What an event asks of its processor.

use crate::facts::Facts;
use pg_entry::{AccessKind, Cause, Entry, Kind, Rights, allowed, dirty, error_code, page_offset};
use pg_event::{
    Control, Event, Outcome, Version, Want, access_kind, is_done_write, may_cache, uses_last,
    want_of,
};

/// What an event that names moments asks.
#[derive(Clone, Copy)]
pub(crate) struct Asked {
    pub event: u32,
    pub p: u16,
    /// The slot before it.
    pub slot: u32,
    pub control: Control,
    pub la: u64,
    pub access: AccessKind,
    pub want: Want,
    /// The physical address that it got, or none where it faulted.
    pub answer: Option<u64>,
    /// The word that an assist names.
    pub word: Option<u64>,
    /// Whether an assist sets the dirty flag.
    pub is_dirty: bool,
    /// Whether nothing can witness it: its error code is not that of its cause.
    pub is_hopeless: bool,
}

impl Asked {
    /// Whether it uses a page, and does not only look at an entry.
    pub(crate) fn is_page(&self) -> bool {
        uses_last(self.want)
    }

    /// Whether a page is what it asks for.
    pub(crate) fn suits(&self, facts: &Facts<'_>, value: u64, kind: Kind, rights: Rights) -> bool {
        let Kind::Leaf { frame, shift, .. } = kind else {
            return false;
        };
        if !may_cache(facts.version, Entry(value)) {
            return false;
        }
        let may = allowed(facts.cfg, rights, self.access);
        match self.answer {
            Some(answer) => {
                let is_write = is_done_write(self.access, Outcome::Page(answer));
                let is_clean = facts.version == Version::Two && is_write && !dirty(Entry(value));
                may && !is_clean && shift <= 30 && answer == frame | page_offset(self.la, shift)
            }
            None => !may,
        }
    }

    /// Whether an entry that is read at the event itself is what it asks for.
    pub(crate) fn suits_now(
        &self,
        facts: &Facts<'_>,
        word: u64,
        kind: Kind,
        rights: Rights,
    ) -> bool {
        match (self.want, kind) {
            (Want::Absent, Kind::Absent) | (Want::Reserved, Kind::Reserved) => true,
            (Want::Present, Kind::Table { .. }) => self.word == Some(word) && !self.is_dirty,
            (Want::Present, Kind::Leaf { .. }) => {
                let may = !self.is_dirty || allowed(facts.cfg, rights, self.access);
                self.word == Some(word) && may
            }
            _ => false,
        }
    }
}

fn cause_of(want: Want) -> Cause {
    match want {
        Want::Absent => Cause::Absent,
        Want::Reserved => Cause::Reserved,
        Want::Leaf | Want::Present => Cause::Denied,
    }
}

/// What is wanted of the entry that is read last, the address that an access got, and whether its
/// error code is not that of its cause.
fn wish_of(
    facts: &Facts<'_>,
    access: AccessKind,
    outcome: Option<Outcome>,
) -> (Want, Option<u64>, bool) {
    match outcome {
        Some(Outcome::Page(answer)) => (Want::Leaf, Some(answer), false),
        Some(Outcome::Fault(code)) => {
            let want = want_of(Outcome::Fault(code));
            (
                want,
                None,
                code != error_code(facts.cfg, access, cause_of(want)),
            )
        }
        None => (Want::Present, None, false),
    }
}

/// What an event asks, if it names moments.
pub(crate) fn asked_of(facts: &Facts<'_>, event: u32) -> Option<Asked> {
    let p = facts.processor(event)?;
    asked_under(facts, event, facts.control(p, facts.place(event)))
}

/// What an event asks, if it names moments, where its processor has these control registers.
pub(crate) fn asked_under(facts: &Facts<'_>, event: u32, control: Control) -> Option<Asked> {
    let (p, flags, la, outcome, word) = match facts.run.event_at(event)? {
        Event::Access {
            p,
            flags,
            la,
            outcome,
            ..
        } => (*p, *flags, *la, Some(*outcome), None),
        Event::Assist {
            p,
            flags,
            la,
            word,
            ..
        } => (*p, *flags, *la, None, Some(*word)),
        _ => return None,
    };
    let slot = facts.place(event);
    let access = access_kind(flags);
    let (want, answer, is_hopeless) = wish_of(facts, access, outcome);
    Some(Asked {
        event,
        p,
        slot,
        control,
        la,
        access,
        want,
        answer,
        word,
        is_dirty: word.is_some() && flags >= 16,
        is_hopeless,
    })
}
