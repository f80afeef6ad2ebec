//! Files by their names.

ghost use Rattle.std.specs.Prelude.{◌++◌, codes};
ghost use Rattle.pg_codec.specs.Writing.{Puts};
ghost use Rattle.pg_report.specs.Changes.{filled};
ghost use Rattle.pg_answers.specs.Refusals.{Tells, input_line, uncreated_line, unopened_line};

use crate::refusals::put_name;
use pg_codec::{Failed, Sink, put_all};

/// Of a file that can't be created.
pub const UNCREATED: u8 = 73;

/// Writes a name after what is said of it.
fn put_said<W: Sink>(errors: &mut W, said: &[u8], name: &str) -> Result<(), Failed>
    ensures { Puts W.Sink (said.now ++ (codes " " ++ (name.now ++ codes "\n")))
        errors.old errors.new result }
{
    put_all(errors, said)?;
    put_name(errors, name)
}

/// Writes the line of a file that can't be opened.
pub fn tell_unopened<W: Sink>(errors: &mut W, name: &str)
    ensures { Tells (filled W.Sink errors.old errors.new) (unopened_line name.now) }
{
    let _ = put_said(errors, b"pcid-audit: can't open", name);
}

/// Writes the line of a file that can't be created.
pub fn tell_uncreated<W: Sink>(errors: &mut W, name: &str)
    ensures { Tells (filled W.Sink errors.old errors.new) (uncreated_line name.now) }
{
    let _ = put_said(errors, b"pcid-audit: can't create", name);
}

/// Writes the line that names the input of which the lines before tell.
pub fn tell_input<W: Sink>(errors: &mut W, name: &str)
    ensures { Tells (filled W.Sink errors.old errors.new) (input_line name.now) }
{
    let _ = put_said(errors, b"pcid-audit: input:", name);
}
