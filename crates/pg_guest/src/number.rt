//! Numbers as words.

ghost use Rattle.std.specs.Prelude.{◌≡◌, ◌≤◌, ◌^◌};
ghost use Rattle.pg_guest.specs.Numbers.{spelled, dec_of, hex_of};

/// The number that digits to a base spell, one at least and at most so many.
fn spelled(base: u32, most: usize, digits: &[u8]) -> Option<u64>
    requires low { 2 ≤ base }
    requires high { base ≤ 16 }
    requires fits { base ^ most ≤ 2 ^ 64 }
    ensures { result ≡ spelled base most digits.now }
{
    // `from_str_radix` takes a plus sign too.
    if digits.len() > most || digits.first() == Some(&b'+') {
        return None;
    }
    let Ok(text) = str::from_utf8(digits) else {
        return None;
    };
    u64::from_str_radix(text, base).ok()
}

/// The number of 1 to 10 decimal digits.
#[tactic(auto, unfolding(crate::specs::Numbers::dec_of))]
pub(crate) fn dec_of(word: &[u8]) -> Option<u64>
    ensures { result ≡ dec_of word.now }
{
    spelled(10, 10, word)
}

/// The number of `0x` and 1 to 16 hexadecimal digits.
#[tactic(auto, unfolding(crate::specs::Numbers::hex_of))]
pub(crate) fn hex_of(word: &[u8]) -> Option<u64>
    ensures { result ≡ hex_of word.now }
{
    spelled(16, 16, word.strip_prefix(b"0x")?)
}
