ghost use Rattle.std.specs.Prelude.{◌≡◌};

use crate::stream::{Failed, Sink, Source};
use std::io::{Read, Write};

/// A reader or a writer whose failures are counted: errors of every kind, `Interrupted` too, and
/// writes that take none of the bytes given. At the greatest count it is asked no more.
#[derive(Drop)]
pub struct Watched<T> {
    pub inner: T,
    /// How often a call failed, up to the greatest u64.
    pub failures: u64,
}

impl<T> Watched<T> {
    /// A reader or a writer that has not failed.
    pub fn new(inner: T) -> Watched<T>
        ensures inner { result.inner ≡ inner }
        ensures failures { result.failures ≡ 0 }
    {
        Watched { inner, failures: 0 }
    }
}

impl<T: Read> Source for Watched<T> {
    ghost left = { λ w. T.remaining w.inner };

    ghost failed = { λ w. w.failures };

    fn pull(&mut self, out: &mut [u8]) -> Result<usize, Failed> {
        if self.failures == u64::MAX {
            return Err(Failed);
        }
        match self.inner.read(out) {
            Ok(n) => Ok(n),
            Err(_) => {
                self.failures += 1;
                Err(Failed)
            }
        }
    }

    fn failures(&self) -> u64 {
        self.failures
    }
}

impl<T: Write> Sink for Watched<T> {
    ghost held = { λ w. T.contents w.inner };

    ghost failed = { λ w. w.failures };

    fn put(&mut self, bytes: &[u8]) -> Result<usize, Failed> {
        if self.failures == u64::MAX {
            return Err(Failed);
        }
        match self.inner.write(bytes) {
            Ok(n) if n > 0 || bytes.is_empty() => Ok(n),
            _ => {
                self.failures += 1;
                Err(Failed)
            }
        }
    }

    fn failures(&self) -> u64 {
        self.failures
    }
}
