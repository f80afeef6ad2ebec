//! A source that tells how far the reading of it has come.

ghost use Rattle.std.specs.Prelude.{◌≡◌};

use crate::counter::Counter;
use crate::line::put_read;
use crate::signals::Signals;
use pg_codec::{Failed, Sink, Source};
use std::time::{Clock, Instant};

/// So many seconds it is between two lines, at least.
const PAUSE: u64 = 1;

/// A source that gives what another gives and, while it is asked to, tells a sink each second or so
/// how many events of the record have been pulled, and says whether they name no moments. Whether
/// the sink takes the line, and whether the clock answers, changes nothing.
#[derive(Drop)]
pub struct Followed<'a, R, E, C> {
    pub source: R,
    errors: E,
    clock: C,
    /// How many bytes there are to pull, if that is known.
    size: Option<u64>,
    signals: &'a Signals,
    counter: Counter,
    /// So many bytes were pulled.
    pulled: u64,
    /// When a line was told last, or the first bytes were pulled.
    last: Option<Instant>,
}

/// Counts on.
fn count(counter: &mut Counter, bytes: &[u8]) {
    let mut at = 0;
    for _ in 0..bytes.len() {
        if at >= bytes.len() {
            return;
        }
        at += counter.take(&bytes[at..]);
    }
}

/// Whether a second has gone by since a line was told. It is told then, and the second begins anew.
fn is_time<C: Clock>(clock: &C, last: &mut Option<Instant>) -> bool {
    let Ok(now) = Instant::now(clock) else {
        return false;
    };
    match *last {
        Some(before) if now.duration_since(before).as_secs() < PAUSE => false,
        Some(_) => {
            *last = Some(now);
            true
        }
        None => {
            *last = Some(now);
            false
        }
    }
}

impl<'a, R: Source, E: Sink, C: Clock> Followed<'a, R, E, C> {
    /// Of a source of which nothing was pulled, and which has so many bytes, if that is known. It
    /// tells, and looks for moments, once that is signalled.
    pub fn new(
        source: R,
        errors: E,
        clock: C,
        size: Option<u64>,
        signals: &'a Signals,
    ) -> Followed<'a, R, E, C>
        ensures source { result.source ≡ source }
    {
        signals.unnamed.set(false);
        signals.byte.set(None);
        Followed {
            source,
            errors,
            clock,
            size,
            signals,
            counter: Counter::new(),
            pulled: 0,
            last: None,
        }
    }

    /// Takes note of bytes that were pulled. A record that names moments need not be looked at any
    /// further for these alone.
    fn note(&mut self, bytes: &[u8])
        ensures { self.new.source ≡ self.old.source }
    {
        self.pulled = self.pulled.saturating_add(bytes.len() as u64);
        let tells = self.signals.tells.get();
        let judging = self.signals.judging.get() && !self.counter.is_named();
        if tells || judging {
            count(&mut self.counter, bytes);
        }
        if judging {
            self.signals.unnamed.set(self.counter.is_unnamed());
        }
        if tells && is_time(&self.clock, &mut self.last) {
            let _ = put_read(&mut self.errors, &self.counter, self.size);
        }
    }
}

impl<'a, R: Source, E: Sink, C: Clock> Source for Followed<'a, R, E, C> {
    ghost left = { λ f. R.left f.source };

    ghost failed = { λ f. R.failed f.source };

    fn pull(&mut self, out: &mut [u8]) -> Result<usize, Failed> {
        match self.source.pull(out) {
            Ok(n) => {
                self.note(&out[..n]);
                Ok(n)
            }
            Err(failed) => Err(failed),
        }
    }

    fn failures(&self) -> u64 {
        self.source.failures()
    }

    fn stop(&mut self, unread: usize) {
        self.source.stop(unread);
        self.signals
            .byte
            .set(Some(self.pulled.saturating_sub(unread as u64)));
    }
}
