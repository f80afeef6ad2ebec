//! A source whose first bytes can be looked at before they are pulled.

ghost use Rattle.std.specs.Prelude.{◌≡◌, []};
ghost use Rattle.pg_codec.specs.Reads.{left_of, Finds};
ghost use Rattle.pg_span_run.specs.Versions.{says_spans};

use crate::front::Front;
use crate::header::says_spans;
use pg_codec::{Failed, Source};

/// A source that gives what another gives. What was looked at and is still unread comes first.
#[derive(Drop)]
pub struct Peeked<R> {
    pub inner: R,
    unread: Front,
}

impl<R> Peeked<R> {
    /// Of a source of which nothing was looked at.
    pub fn new(inner: R) -> Peeked<R>
        ensures inner { result.inner ≡ inner }
        ensures unread { result.unread ≡ [] }
    {
        Peeked {
            inner,
            unread: Front::new(),
        }
    }
}

impl<R: Source> Peeked<R> {
    /// Whether what is left begins as a record of version 3 or 4 does: with the magic, and then
    /// with that version. All else is not said to be one, and is for the reader of the other
    /// versions to read or to refuse. Nothing that is left is lost. After a failure it is unknown
    /// what is left, and nothing more should be read.
    pub fn says_spans(&mut self) -> Result<bool, Failed>
        ensures { Finds R.Source says_spans
            (self.old.unread, self.old.inner) (self.new.unread, self.new.inner) result }
    {
        self.unread.fill(&mut self.inner)?;
        Ok(says_spans(self.unread.as_slice()))
    }
}

impl<R: Source> Source for Peeked<R> {
    ghost left = { λ p. left_of p.unread (R.left p.inner) };

    ghost failed = { λ p. R.failed p.inner };

    fn pull(&mut self, out: &mut [u8]) -> Result<usize, Failed> {
        if self.unread.as_slice().is_empty() {
            return self.inner.pull(out);
        }
        if self.inner.failures() == u64::MAX {
            return Err(Failed);
        }
        Ok(self.unread.give(out))
    }

    fn failures(&self) -> u64 {
        self.inner.failures()
    }

    fn stop(&mut self, unread: usize) {
        self.inner
            .stop(unread.saturating_add(self.unread.as_slice().len()));
    }
}
