//! A sink of which each line begins with a name.

ghost use Rattle.std.specs.Prelude.{◌≡◌, ◌≢◌, ◌≤◌, ◌<◌, ◌-◌, ◌^◌, ◌++◌, length, take, None};
ghost use Rattle.std.specs.Prelude.{IfOk, not, nat_eq, slice_index};
ghost use Rattle.std.specs.List.{All};
ghost use Rattle.std.specs.Io.KnownBytes.{Appends};
ghost use Rattle.pg_codec.specs.Streams.{RaisesFailures};
ghost use Rattle.pg_codec.specs.Writing.{Puts};
ghost use Rattle.pg_tool.specs.Names.{name_text};

use crate::lines::line_length;
use pg_codec::{Failed, Sink, put_all};

/// Puts a name and a colon before each line of what is put into it, and then the line into another
/// sink.
#[derive(Drop)]
pub(crate) struct Named<'a, O> {
    output: &'a mut O,
    name: &'a str,
    /// Whether the name of the line that is put now stands before it.
    has_begun: bool,
}

impl<'a, O: Sink> Named<'a, O> {
    /// Nothing was put into it.
    pub(crate) fn new(output: &'a mut O, name: &'a str) -> Named<'a, O> {
        Named {
            output,
            name,
            has_begun: false,
        }
    }

    /// Puts the name and the colon, unless they stand there.
    fn begin(&mut self) -> Result<(), Failed>
        ensures put { Puts O.Sink (name_text self.old.name.now self.old.has_begun)
            self.old.output.now self.new.output.now result }
        ensures name { self.new.name.now ≡ self.old.name.now }
    {
        if self.has_begun {
            return Ok(());
        }
        put_all(self.output, self.name.as_bytes())?;
        put_all(self.output, b": ")?;
        self.has_begun = true;
        Ok(())
    }

    /// Puts a beginning of the first line, at least one byte, behind the name, and answers how many
    /// bytes it put.
    fn put_part(&mut self, bytes: &[u8]) -> Result<usize, Failed>
        requires { 0 < length bytes.now }
        ensures bound { IfOk result (λ n. n ≤ length bytes.now) }
        ensures some { IfOk result (λ n. 0 < n) }
        ensures line { IfOk result (λ n. All (λ byte. byte ≢ 10) (take (n - 1) bytes.now)) }
        ensures bytes { IfOk result (λ n. Appends (O.held self.old.output.now)
            (O.held self.new.output.now)
            (name_text self.old.name.now self.old.has_begun ++ take n bytes.now)) }
        ensures name { self.new.name.now ≡ self.old.name.now }
        ensures begun { IfOk result (λ n. self.new.has_begun
            ≡ not (nat_eq (slice_index bytes.now (n - 1)) 10)) }
        ensures failures { RaisesFailures (O.failed self.old.output.now)
            (O.failed self.new.output.now) result }
        ensures greatest { IfOk result (λ _. O.failed self.old.output.now < 2 ^ 64 - 1) }
    {
        self.begin()?;
        let taken = self.output.put(&bytes[..line_length(bytes)])?;
        self.has_begun = bytes[taken - 1] != b'\n';
        Ok(taken)
    }
}

impl<'a, O: Sink> Sink for Named<'a, O> {
    ghost held = { λ _. None };

    ghost failed = { λ n. O.failed n.output.now };

    fn put(&mut self, bytes: &[u8]) -> Result<usize, Failed> {
        if bytes.is_empty() {
            return self.output.put(bytes);
        }
        self.put_part(bytes)
    }

    fn failures(&self) -> u64 {
        self.output.failures()
    }
}
