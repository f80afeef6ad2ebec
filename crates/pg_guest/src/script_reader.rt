//! The lines of a script, one after the other.

ghost use Rattle.std.specs.Prelude.{◌≡◌, ◌≤◌, ◌<◌, ◌+◌, ◌^◌, length, vec_len, option_map};
ghost use Rattle.std.specs.Prelude.{IfOk, OnOk, IfSome};
ghost use Rattle.std.specs.List.{AllByRecursion};
ghost use Rattle.pg_event.specs.Spelling.{IsHead};
ghost use Rattle.pg_event.specs.Heads.{HoldsToAll, most_segment};
ghost use Rattle.pg_guest.specs.Heading.{IsCfg, version_in, machine_in, segment_in, start_in};
ghost use Rattle.pg_guest.specs.Tasks.{IsWellFormed};
ghost use Rattle.pg_guest.specs.Reading.{in_line, placed, line_at, heading_at, starts_at};
ghost use Rattle.pg_guest.specs.Reading.{processors_at, head_at, task_after, tasks_at};
ghost use Rattle.pg_guest.specs.Reading.{line_or_refusal, next_start_at, next_task_at};
ghost use Rattle.pg_guest.specs.Reading.{most_instructions};
ghost use Rattle.pg_guest.specs.Answers.{Agrees, AgreesOnPart, AgreesOnAll, lines_in, told_in};
ghost use Rattle.pg_guest.specs.Answers.{said_in, front_in, first_number};

use crate::heading::{machine_of, names_processor, segment_of, start_of, version_of};
use crate::instruction::Task;
use crate::script_refusal::{ScriptError, ScriptRefusal};
use crate::script_text::{Front, Text, Told};
use crate::task::task_of;
use crate::tasks::Tasks;
use crate::words::Words;
use pg_entry::Cfg;
use pg_event::{Header, Version, most_processors};
use std::alloc::Global;

/// The most instructions of a script.
pub(crate) const MOST_INSTRUCTIONS: usize = 1_048_576;

/// A refusal of words as one of their line.
fn in_line<T: Copy>(line: u32, read: Result<T, ScriptRefusal>) -> Result<T, ScriptError>
    ensures { result ≡ in_line line read }
{
    read.map_err(|refusal| ScriptError { line, refusal })
}

/// Any refusal of words as that of their line's place.
fn placed<T: Copy>(place: ScriptRefusal, read: Result<T, ScriptRefusal>) -> Result<T, ScriptRefusal>
    ensures { result ≡ placed place read }
{
    read.map_err(|_| place)
}

/// A front that must be a line.
fn line_of<'a>(place: ScriptRefusal, front: Front<'a>) -> Result<Told<'a, Words<'a>>, ScriptError>
    ensures all { Agrees (said_in lines_in) result
        (line_or_refusal place (front_in lines_in front.entry)) }
    ensures told { Agrees (said_in told_in) result
        (line_or_refusal place (front_in told_in front.entry)) }
{
    match front {
        Front::Line(line) => Ok(Told {
            number: line.number,
            value: Words::new(line.value),
            rest: line.rest,
        }),
        Front::Ended(line) => Err(ScriptError {
            line,
            refusal: place,
        }),
    }
}

/// Line 1.
#[tactic(auto, unfolding(crate::specs::Reading::heading_at))]
fn version_line<'a>(text: &Text<'a>) -> Result<(Version, Text<'a>), ScriptError>
    ensures { Agrees (λ x. (x.0, lines_in x.1)) result
        (heading_at ScriptRefusal.FirstLine version_in (lines_in text.now)) }
{
    let place = ScriptRefusal::FirstLine;
    let line = line_of(place, text.front()?)?;
    let version = in_line(line.number, placed(place, version_of(&line.value)))?;
    Ok((version, line.rest))
}

#[tactic(auto, unfolding(crate::specs::Reading::heading_at))]
fn machine_line<'a>(text: &Text<'a>) -> Result<(Cfg, Text<'a>), ScriptError>
    ensures cfg { Agrees (λ x. (x.0, told_in x.1)) result
        (heading_at ScriptRefusal.Machine machine_in (told_in text.now)) }
    ensures range { IfOk result (λ x. IsCfg x.0) }
{
    let place = ScriptRefusal::Machine;
    let line = line_of(place, text.told_front()?)?;
    let cfg = in_line(line.number, placed(place, machine_of(&line.value)))?;
    Ok((cfg, line.rest))
}

#[tactic(auto, unfolding(crate::specs::Reading::heading_at))]
fn segment_line<'a>(text: &Text<'a>) -> Result<(u32, Text<'a>), ScriptError>
    ensures size { Agrees (λ x. (x.0, told_in x.1)) result
        (heading_at ScriptRefusal.Segment segment_in (told_in text.now)) }
    ensures range { IfOk result (λ x. (1 ≤ x.0) × (x.0 ≤ most_segment)) }
{
    let place = ScriptRefusal::Segment;
    let line = line_of(place, text.told_front()?)?;
    let size = in_line(line.number, placed(place, segment_of(&line.value)))?;
    Ok((size, line.rest))
}

/// A processor more, if the next line is one's.
#[tactic(auto, unfolding(crate::specs::Reading::next_start_at))]
fn next_start<'a>(
    maxphyaddr: u8,
    text: &Text<'a>,
) -> Result<Option<Told<'a, (u64, bool)>>, ScriptError>
    requires { maxphyaddr ≤ 52 }
    ensures start { Agrees (option_map (said_in told_in)) result
        (next_start_at maxphyaddr (told_in text.now)) }
    ensures range { IfOk result (λ next. IfSome next (λ x. x.value.0 < 2 ^ maxphyaddr)) }
{
    let Front::Line(line) = text.told_front()? else {
        return Ok(None);
    };
    let words = Words::new(line.value);
    if !names_processor(&words) {
        return Ok(None);
    }
    let place = ScriptRefusal::Cpu;
    let value = in_line(line.number, placed(place, start_of(maxphyaddr, &words)))?;
    Ok(Some(Told {
        number: line.number,
        value,
        rest: line.rest,
    }))
}

/// The first processor.
#[tactic(auto, unfolding(crate::specs::Reading::heading_at))]
fn first_start<'a>(maxphyaddr: u8, text: &Text<'a>) -> Result<Told<'a, (u64, bool)>, ScriptError>
    requires { maxphyaddr ≤ 52 }
    ensures start { Agrees (λ x. (x.value, told_in x.rest)) result
        (heading_at ScriptRefusal.Cpu (start_in maxphyaddr) (told_in text.now)) }
    ensures number { IfOk result (λ x. x.number ≡ first_number (told_in text.now)) }
    ensures range { IfOk result (λ x. x.value.0 < 2 ^ maxphyaddr) }
{
    let place = ScriptRefusal::Cpu;
    let line = line_of(place, text.told_front()?)?;
    let value = in_line(
        line.number,
        placed(place, start_of(maxphyaddr, &line.value)),
    )?;
    Ok(Told {
        number: line.number,
        value,
        rest: line.rest,
    })
}

/// Out of memory in a line.
fn out_of_memory(line: u32) -> ScriptError
    ensures { result ≡ record { line = line; refusal = ScriptRefusal.Memory } }
{
    ScriptError {
        line,
        refusal: ScriptRefusal::Memory,
    }
}

/// The processors: one and at most so many more.
#[tactic(auto, unfolding(crate::specs::Reading::processors_at))]
fn processors_of<'a>(
    alloc: Global,
    maxphyaddr: u8,
    most: usize,
    text: &Text<'a>,
) -> Result<(Vec<(u64, bool)>, Text<'a>), ScriptError>
    requires { maxphyaddr ≤ 52 }
    ensures starts { AgreesOnPart (λ x. (x.0.items, told_in x.1)) result (told_in text.now)
        (processors_at maxphyaddr most (told_in text.now)) }
    ensures some { IfOk result (λ x. 1 ≤ vec_len x.0) }
    ensures few { IfOk result (λ x. vec_len x.0 ≤ most + 1) }
    ensures range { IfOk result
        (λ x. AllByRecursion (λ start. start.0 < 2 ^ maxphyaddr) x.0.items) }
{
    let Told {
        number,
        value,
        mut rest,
    } = first_start(maxphyaddr, text)?;
    let mut starts = Vec::new(alloc);
    if starts.push(value).is_err() {
        return Err(out_of_memory(number));
    }
    for _ in 0..most {
        let Some(start) = next_start(maxphyaddr, &rest)? else {
            break;
        };
        match starts.push(start.value) {
            Ok(()) => rest = start.rest,
            Err(_) => return Err(out_of_memory(start.number)),
        }
    }
    Ok((starts, rest))
}

/// The lines before the instructions.
#[tactic(auto, unfolding(crate::specs::Reading::head_at))]
pub(crate) fn header_of<'a>(
    alloc: Global,
    text: &Text<'a>,
) -> Result<(Header, Text<'a>), ScriptError>
    ensures header { AgreesOnPart (λ x. (x.0, told_in x.1)) result (lines_in text.now)
        (head_at (lines_in text.now)) }
    ensures range { IfOk result (λ x. IsHead x.0) }
    ensures rules { IfOk result (λ x. HoldsToAll x.0) }
{
    let (version, rest) = version_line(text)?;
    let (cfg, rest) = machine_line(&rest)?;
    let (segment, rest) = segment_line(&rest)?;
    let most = most_processors(version) - 1;
    let (processors, rest) = processors_of(alloc, cfg.m, most, &rest)?;
    let header = Header {
        version,
        cfg,
        segment,
        processors,
    };
    Ok((header, rest))
}

/// What the words of an instruction say, where so many came before.
fn task_after(count: usize, header: &Header, words: &Words) -> Result<Task, ScriptRefusal>
    requires { header.now.cfg.m ≤ 52 }
    ensures task { Agrees (λ x. x) result (task_after count header.now words.now) }
    ensures well { IfOk result (λ task. IsWellFormed header.now task.p task.instruction) }
    ensures few { OnOk result (count < most_instructions) }
{
    if count >= MOST_INSTRUCTIONS {
        return Err(ScriptRefusal::TooMany);
    }
    task_of(header, words)
}

/// The next instruction, if a line comes.
#[tactic(auto, unfolding(crate::specs::Reading::next_task_at))]
fn next_task<'a>(
    header: &Header,
    count: usize,
    text: &Text<'a>,
) -> Result<Option<Told<'a, Task>>, ScriptError>
    requires { header.now.cfg.m ≤ 52 }
    ensures task { Agrees (option_map (said_in told_in)) result
        (next_task_at header.now count (told_in text.now)) }
    ensures well { IfOk result (λ next. IfSome next
        (λ x. IsWellFormed header.now x.value.p x.value.instruction)) }
    ensures few { IfOk result (λ next. IfSome next (λ _. count < most_instructions)) }
    ensures less { IfOk result (λ next. IfSome next
        (λ x. length x.rest.1 < length text.now.1)) }
{
    let Front::Line(line) = text.told_front()? else {
        return Ok(None);
    };
    let value = in_line(
        line.number,
        task_after(count, header, &Words::new(line.value)),
    )?;
    Ok(Some(Told {
        number: line.number,
        value,
        rest: line.rest,
    }))
}

/// The instructions, one a line.
pub(crate) fn tasks_of<'a>(
    alloc: Global,
    header: &Header,
    text: Text<'a>,
) -> Result<Tasks, ScriptError>
    requires { header.now.cfg.m ≤ 52 }
    ensures tasks { AgreesOnAll (λ x. x) result (told_in text.entry)
        (tasks_at header.now 0 (told_in text.entry)) }
    ensures well { IfOk result (λ tasks.
        AllByRecursion (λ task. IsWellFormed header.now task.p task.instruction) tasks) }
    ensures few { IfOk result (λ tasks. length tasks ≤ most_instructions) }
{
    let mut tasks = Tasks::new(alloc);
    let mut rest = text;
    'lines: loop {
        let Some(task) = next_task(header, tasks.len(), &rest)? else {
            return Ok(tasks);
        };
        match tasks.push(alloc, &task.value) {
            Ok(()) => rest = task.rest,
            Err(_) => return Err(out_of_memory(task.number)),
        }
    }
}
