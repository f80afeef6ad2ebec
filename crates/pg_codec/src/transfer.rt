//! Whole slices, from a source or into a sink.

ghost use Rattle.std.specs.Prelude.{◌≡◌, ◌<◌, ◌≤◌, length, IfOk, take};
ghost use Rattle.std.specs.Io.KnownBytes.{Consumes, IsAtEnd};
ghost use Rattle.pg_codec.specs.Streams.{RaisesFailures};
ghost use Rattle.pg_codec.specs.Writing.{Puts};

use crate::stream::{Failed, Sink, Source};

/// Fills the slice, as far as the source has bytes, and answers how many it pulled.
pub(crate) fn fill<R: Source>(source: &mut R, out: &mut [u8]) -> Result<usize, Failed>
    ensures bound { IfOk result (λ n. n ≤ length out.new) }
    ensures bytes { IfOk result (λ n.
        Consumes (R.left source.old) (R.left source.new) (take n out.new)) }
    ensures end { IfOk result (λ n. n < length out.new → IsAtEnd (R.left source.new)) }
    ensures failures { RaisesFailures (R.failed source.old) (R.failed source.new) result }
{
    let mut at = 0;
    for _ in 0..out.len() {
        if at >= out.len() {
            return Ok(at);
        }
        let n = source.pull(&mut out[at..])?;
        if n == 0 {
            return Ok(at);
        }
        at += n;
    }
    Ok(at)
}

/// Puts all of the bytes into a sink. It fails only where the sink does, which then holds a
/// beginning of them.
pub fn put_all<W: Sink>(sink: &mut W, bytes: &[u8]) -> Result<(), Failed>
    ensures { Puts W.Sink bytes.now sink.old sink.new result }
{
    let mut at = 0;
    for _ in 0..bytes.len() {
        if at >= bytes.len() {
            return Ok(());
        }
        let n = sink.put(&bytes[at..])?;
        at += n;
    }
    Ok(())
}
