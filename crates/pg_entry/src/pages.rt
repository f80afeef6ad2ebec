ghost use Rattle.std.specs.Prelude.{◌≡◌, ◌<◌, ◌≤◌, ◌%◌, ◌^◌};

/// The bytes of a page whose size has this binary logarithm.
pub fn page_size(shift: u8) -> u64
    requires { shift ≤ 30 }
    ensures { result ≡ 2 ^ shift }
{
    1 << shift
}

/// The offset of a linear address in its page of 2 to the power of `shift` bytes.
pub fn page_offset(la: u64, shift: u8) -> u64
    requires { shift ≤ 30 }
    ensures offset { result ≡ la % 2 ^ shift }
    ensures within { result < 2 ^ 30 }
{
    la % page_size(shift)
}
