//! What is told where a program has no words to go by.

ghost use Rattle.pg_report.specs.Changes.{filled};
ghost use Rattle.pg_answers.specs.Refusals.{TellsNoWords};

use crate::refusals::{tell_memory, tell_text};
use crate::statuses::{MEMORY, USAGE};
use pg_arguments::NoWords;
use pg_codec::Sink;

/// Tells why there are no words, and gives the exit status.
pub fn tell_no_words<E: Sink>(errors: &mut E, why: NoWords) -> u8
    ensures { TellsNoWords (filled E.Sink errors.old errors.new) why result }
{
    match why {
        NoWords::NoText => {
            tell_text(errors, "error: a word is no UTF-8 text\n");
            USAGE
        }
        NoWords::Memory => {
            tell_memory(errors);
            MEMORY
        }
    }
}
