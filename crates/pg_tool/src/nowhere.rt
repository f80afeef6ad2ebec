//! A sink that keeps nothing.

ghost use Rattle.std.specs.Prelude.{None};

use pg_codec::{Failed, Sink};

/// Takes all that is put into it, keeps nothing, and never fails.
#[derive(Drop)]
pub struct Nowhere;

impl Sink for Nowhere {
    ghost held = { λ _. None };

    ghost failed = { λ _. 0 };

    fn put(&mut self, bytes: &[u8]) -> Result<usize, Failed> {
        Ok(bytes.len())
    }

    fn failures(&self) -> u64 {
        0
    }
}
