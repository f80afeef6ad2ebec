//! The program by the words of its command line.

ghost use Rattle.std.specs.Prelude.{◌≡◌};
ghost use Rattle.clap.specs.Walk.{texts};
ghost use Rattle.pg_answers.specs.Streams.{streams};
ghost use Rattle.pg_runner.specs.Seats.{counts};
ghost use Rattle.pg_tool.specs.Answers.{opens};
ghost use Rattle.pg_tool.specs.Outputs.{makes};
ghost use Rattle.pg_tool.specs.Words.{AnswersArguments, AnswersWords};

use crate::host::Host;
use crate::program::pcid_audit_followed;
use pg_answers::tell_no_words;
use pg_arguments::{NoWords, plan, words_of};
use pg_codec::{Sink, Source};
use pg_runner::Observer;
use pg_span_run::Peeked;
use std::alloc::AllocGlobal;
use std::sync::Wait;
use std::thread::Threads;

/// The whole program, over any streams, by the words after its name: they lead to a plan, and the
/// plan to the answer (`pcid_audit_followed`).
pub fn pcid_audit_of_words<
    T: AllocGlobal + Threads + Wait + Sync,
    F: Fn(&str) -> Option<Peeked<S>>,
    S: Source + Drop,
    G: Fn(&str) -> Option<W>,
    W: Sink + Drop,
    R: Source,
    O: Sink,
    E: Sink,
    P: Observer + Drop,
>(
    rt: &T,
    words: &[&str],
    host: Host<'_, F, G, P>,
    input: &mut Peeked<R>,
    output: &mut O,
    errors: &mut E,
) -> u8
    requires opener { F.IsAlwaysCallable host.opener }
    requires creator { G.IsAlwaysCallable host.creator }
    requires observer { P.told host.observer ≡ counts 0 0 }
    ensures { AnswersWords (texts words.now) (opens F.Fn ⟦<Peeked<S> as Source>⟧ host.entry.opener)
        (makes G.Fn W.Sink host.entry.creator) host.entry.is_terminal (input.new ≡ input.old)
        (streams ⟦<Peeked<R> as Source>⟧ O.Sink E.Sink
        (input.old, output.old, errors.old) (input.new, output.new, errors.new)) result }
{
    let planned = plan(rt.alloc(), words);
    pcid_audit_followed(rt, planned, host, input, output, errors)
}

/// The same by all arguments that a program was started with, its name first, or by why they can't
/// be read. It gives the exit status, which is 64 where one of them is no text, and 3 where memory
/// runs out over them.
pub fn pcid_audit_of_arguments<
    T: AllocGlobal + Threads + Wait + Sync,
    F: Fn(&str) -> Option<Peeked<S>>,
    S: Source + Drop,
    G: Fn(&str) -> Option<W>,
    W: Sink + Drop,
    R: Source,
    O: Sink,
    E: Sink,
    P: Observer + Drop,
>(
    rt: &T,
    arguments: Result<Vec<String>, NoWords>,
    host: Host<'_, F, G, P>,
    input: &mut Peeked<R>,
    output: &mut O,
    errors: &mut E,
) -> u8
    requires opener { F.IsAlwaysCallable host.opener }
    requires creator { G.IsAlwaysCallable host.creator }
    requires observer { P.told host.observer ≡ counts 0 0 }
    ensures { AnswersArguments arguments
        (opens F.Fn ⟦<Peeked<S> as Source>⟧ host.entry.opener)
        (makes G.Fn W.Sink host.entry.creator) host.entry.is_terminal (input.new ≡ input.old)
        (streams ⟦<Peeked<R> as Source>⟧ O.Sink E.Sink
        (input.old, output.old, errors.old) (input.new, output.new, errors.new)) result }
{
    let arguments = match arguments {
        Ok(arguments) => arguments,
        Err(why) => return tell_no_words(errors, why),
    };
    match words_of(rt.alloc(), arguments.as_slice()) {
        Ok(words) => pcid_audit_of_words(rt, words.as_slice(), host, input, output, errors),
        Err(_) => tell_no_words(errors, NoWords::Memory),
    }
}
