ghost use Rattle.std.specs.Prelude.{◌≡◌};
ghost use Rattle.pg_codec.specs.Errors.{refusal_number, error_number};

use crate::error::ReadError;
use pg_event::Refusal;

fn refusal_number(refusal: Refusal) -> u8
    ensures { result ≡ refusal_number refusal }
{
    match refusal {
        Refusal::Magic => 1,
        Refusal::Version => 2,
        Refusal::HeaderField => 3,
        Refusal::SegmentNumber => 4,
        Refusal::SegmentCount => 5,
        Refusal::Tag => 6,
        Refusal::Malformed { .. } => 7,
        Refusal::Truncated => 8,
        Refusal::Total => 9,
        Refusal::Trailing => 10,
    }
}

impl ReadError {
    /// The number by which the error is named to users: 1 to 10 what the bytes lack, 11 device,
    /// 12 memory, 13 failed.
    pub fn number(&self) -> u8
        ensures { result ≡ error_number self.now }
    {
        match *self {
            ReadError::Refused(refusal) => refusal_number(refusal),
            ReadError::Device => 11,
            ReadError::Memory => 12,
            ReadError::Failed => 13,
        }
    }
}
