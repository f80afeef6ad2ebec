//! Where bytes come from and go to.

ghost use Rattle.std.specs.Prelude.{◌≡◌, ◌+◌, ◌-◌, ◌^◌, ◌<◌, ◌≤◌, ℕ, List, Option, length, IfOk};
ghost use Rattle.std.specs.Prelude.{MatchResult, take};
ghost use Rattle.std.specs.Io.KnownBytes.{ReadConsumes, WriteAppends, Consumes, IsAtEnd};
ghost use Rattle.pg_codec.specs.Streams.{RaisesFailures};

/// The device failed in this call, or had failed as often as can be counted.
#[derive(Clone, Copy)]
pub struct Failed;

/// What bytes are pulled from.
pub trait Source {
    /// The bytes that are left, where they are known.
    ghost left: { Self → Option (List ℕ) };

    /// How often the device has failed.
    ghost failed: { Self → ℕ };

    /// Pulls bytes into the front of the slice, and answers how many. With room in the slice 0 says
    /// that the input has ended. `Failed` is answered exactly where the call raises the count of
    /// failures by one, or finds it at the greatest u64, where it stays.
    fn pull(&mut self, out: &mut [u8]) -> Result<usize, Failed>
        ensures bound { IfOk result (λ n. n ≤ length out.new) }
        ensures bytes { ReadConsumes (left self.old) (left self.new) result out.new }
        ensures failures { RaisesFailures (failed self.old) (failed self.new) result }
        ensures greatest { IfOk result (λ _. failed self.old < 2 ^ 64 - 1) };

    /// How often the device has failed.
    fn failures(&self) -> u64
        ensures { result ≡ failed self.now };

    /// Hears that who pulled bytes stopped, and has not read the last of them, so many. A source
    /// that wants to know where the reading stopped has a body of its own.
    fn stop(&mut self, _unread: usize)
        ensures left { left self.new ≡ left self.old }
        ensures failed { failed self.new ≡ failed self.old }
    {}
}

/// What bytes are put into.
pub trait Sink {
    /// The bytes that it holds, where they are known.
    ghost held: { Self → Option (List ℕ) };

    /// How often the device has failed.
    ghost failed: { Self → ℕ };

    /// Puts a front of the bytes, and answers how many: at least one, where there are any. `Failed`
    /// is answered exactly where the call raises the count of failures by one, or finds it at the
    /// greatest u64, where it stays.
    fn put(&mut self, bytes: &[u8]) -> Result<usize, Failed>
        ensures bound { IfOk result (λ n. n ≤ length bytes.now) }
        ensures some { IfOk result (λ n. 0 < length bytes.now → 0 < n) }
        ensures bytes { WriteAppends (held self.old) (held self.new) result bytes.now }
        ensures failures { RaisesFailures (failed self.old) (failed self.new) result }
        ensures greatest { IfOk result (λ _. failed self.old < 2 ^ 64 - 1) };

    /// How often the device has failed.
    fn failures(&self) -> u64
        ensures { result ≡ failed self.now };
}
