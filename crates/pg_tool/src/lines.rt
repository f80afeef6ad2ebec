//! Lines of text that come in pieces.

ghost use Rattle.std.specs.Prelude.{◌≤◌, ◌<◌, ◌≢◌, ◌-◌, length, take};
ghost use Rattle.std.specs.List.{All};

/// How many bytes there are up to the end of the first line.
pub(crate) fn line_length(bytes: &[u8]) -> usize
    ensures bound { result ≤ length bytes.now }
    ensures some { 0 < length bytes.now → 0 < result }
    ensures line { All (λ byte. byte ≢ 10) (take (result - 1) bytes.now) }
{
    match bytes.iter().position(|byte| *byte == b'\n') {
        Some(place) => place + 1,
        None => bytes.len(),
    }
}
