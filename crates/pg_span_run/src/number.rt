ghost use Rattle.std.specs.Prelude.{◌≡◌};
ghost use Rattle.pg_span_run.specs.Errors.{spanned_refusal_number, spanned_error_number};

use crate::error::SpannedError;
use crate::refusal::SpannedRefusal;
use pg_codec::ReadError;

fn refusal_number(refusal: SpannedRefusal) -> u8
    ensures { result ≡ spanned_refusal_number refusal }
{
    match refusal {
        SpannedRefusal::Plain(refusal) => ReadError::Refused(refusal).number(),
        SpannedRefusal::Back { .. } => 7,
    }
}

impl SpannedError {
    /// The number by which the error is named to users: 1 to 10 what the bytes lack (7 for each
    /// event that breaks a rule), 12 memory.
    pub fn number(&self) -> u8
        ensures { result ≡ spanned_error_number self.now }
    {
        match *self {
            SpannedError::Refused(refusal) => refusal_number(refusal),
            SpannedError::Memory => 12,
        }
    }
}
