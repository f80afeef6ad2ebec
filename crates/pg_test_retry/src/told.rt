//! What the calls come to, as text.

ghost use Rattle.std.specs.Prelude.{◌<◌, ◌-◌, ◌^◌, length};
ghost use Rattle.pg_event.specs.Spelling.{IsRecord};
ghost use Rattle.pg_runner.specs.Runs.{record_of};

use crate::guest::{Ran, run};
use crate::judge::judge;
use pg_codec::{Watched, write_record};
use pg_event::Record;
use pg_guest::Script;
use pg_report::Report;
use std::alloc::{AllocError, Global};

/// A page mapped, read, taken away, read from what is cached, invalidated and read again.
const OLD: &[u8] = b"pcid-guest 1
machine 40 wp nxe
segment 16
cpu 0x1001 1
0 write 0x1000 0x2007
0 write 0x2000 0x3007
0 write 0x3000 0x4007
0 write 0x4028 0x9007
0 read 0x5123 user
0 write 0x4028 0x0
0 read 0x5123 user
0 invlpg 0x5000
0 read 0x5123 user
";

/// The same for a record of version 2.
const NEW: &[u8] = b"pcid-guest 2
machine 40 wp nxe
segment 16
cpu 0x1001 1
0 write 0x1000 0x2007
0 write 0x2000 0x3007
0 write 0x3000 0x4007
0 write 0x4028 0x9007
0 read 0x5123 user
0 write 0x4028 0x0
0 read 0x5123 user
0 invlpg 0x5000
0 read 0x5123 user
";

/// A record's bytes in hexadecimal.
fn hex_of(alloc: Global, trace: &Record) -> Result<String, AllocError>
    requires { IsRecord (record_of trace.now) }
{
    let mut sink = Watched::new(Vec::new(alloc));
    // A sink in memory fails only where it can't grow.
    if write_record(&mut sink, &trace.header, &trace.events).is_err() {
        return Err(AllocError);
    }
    hex::encode(alloc, sink.inner)
}

/// Adds a record's bytes and its report.
fn push_report(
    alloc: Global,
    text: &mut String,
    trace: &Record,
    report: &Report,
) -> Result<(), AllocError>
    requires { IsRecord (record_of trace.now) }
{
    text.push_str(hex_of(alloc, trace)?.as_str())?;
    text.push('\n')?;
    text.push_str(report.text(alloc)?.as_str())
}

/// Adds how many events were given out, and how many steps a run has.
fn push_counts(alloc: Global, text: &mut String, given: u64, steps: u64) -> Result<(), AllocError> {
    let counts = format!(in alloc; "given out: {given}\nsteps: {steps}\n")?;
    text.push_str(counts.as_str())
}

/// Adds what a run comes to.
fn tell_run(
    alloc: Global,
    text: &mut String,
    ran: &Ran,
    refused: &mut u64,
) -> Result<(), AllocError>
    requires { IsRecord (record_of ran.now.trace) }
{
    let judged = judge(alloc, &ran.trace, refused)?;
    push_report(alloc, text, &ran.trace, &judged.report)?;
    push_counts(alloc, text, ran.given, judged.steps)
}

/// Adds what a script comes to.
fn tell(
    alloc: Global,
    text: &mut String,
    script: &[u8],
    refused: &mut u64,
) -> Result<(), AllocError>
    requires { length script.now < 2 ^ 32 - 1 }
{
    let Ok(script) = Script::read(alloc, script) else {
        return Err(AllocError);
    };
    let ran = run(alloc, &script, refused)?;
    tell_run(alloc, text, &ran, refused)
}

/// What both scripts come to.
pub(crate) fn tell_all(alloc: Global, refused: &mut u64) -> Result<String, AllocError> {
    let mut text = String::new(alloc);
    tell(alloc, &mut text, OLD, refused)?;
    tell(alloc, &mut text, NEW, refused)?;
    Ok(text)
}
