//! What gives an outcome, as text.

ghost use Rattle.std.specs.Prelude.{◌≡◌, ◌++◌, OnOk, string_bytes};
ghost use Rattle.pg_answers.specs.OutcomeTexts.{given_line, given_lines, since_line};
ghost use Rattle.pg_answers.specs.OutcomeTexts.{spaced_word, words_text, dirty_text, needs_text};
ghost use Rattle.pg_answers.specs.OutcomeTexts.{needs_line, flags_line, told_text};

use crate::answer::{NeededFlags, OutcomeWalk};
use crate::outcomes_text::push_allowed;
use pg_explain::{WalkEntry, is_table, push_entry};
use std::alloc::AllocError;

/// Appends the line of an entry.
fn push_given(text: &mut String, entry: &WalkEntry) -> Result<(), AllocError>
    ensures { OnOk result
        (string_bytes text.new ≡ string_bytes text.old ++ given_line entry.now) }
{
    text.push_str("  ")?;
    push_entry(text, entry)
}

/// Appends the entries of a walk down to the first that is no table.
fn push_walk(text: &mut String, walk: &[WalkEntry]) -> Result<(), AllocError>
    ensures { OnOk result
        (string_bytes text.new ≡ string_bytes text.old ++ given_lines walk.now) }
{
    for entry in walk {
        push_given(text, entry)?;
        if !is_table(entry.kind) {
            return Ok(());
        }
    }
    Ok(())
}

/// Appends since when the leaf is cached, where there is one.
fn push_since(text: &mut String, since: Option<u32>) -> Result<(), AllocError>
    ensures { OnOk result
        (string_bytes text.new ≡ string_bytes text.old ++ since_line since) }
{
    match since {
        Some(moment) => write!(text, "  cached since {moment}, dropped by nothing\n"),
        None => Ok(()),
    }
}

/// Appends a word by its physical address, after a space.
fn push_word(text: &mut String, word: u64) -> Result<(), AllocError>
    ensures { OnOk result (string_bytes text.new ≡ string_bytes text.old ++ spaced_word word) }
{
    write!(text, " [0x{word:x}]")
}

fn push_words(text: &mut String, words: &[u64]) -> Result<(), AllocError>
    ensures { OnOk result
        (string_bytes text.new ≡ string_bytes text.old ++ words_text words.now) }
{
    for word in words {
        push_word(text, *word)?;
    }
    Ok(())
}

/// Appends which word needs the dirty flag, where one does, and the end of the line.
fn push_dirty(text: &mut String, dirty: Option<u64>) -> Result<(), AllocError>
    ensures { OnOk result (string_bytes text.new ≡ string_bytes text.old ++ dirty_text dirty) }
{
    match dirty {
        Some(word) => {
            text.push_str(", dirty in")?;
            push_word(text, word)?;
            text.push_str("\n")
        }
        None => text.push_str("\n"),
    }
}

/// Appends which words need flags.
fn push_needed(text: &mut String, accessed: &[u64], dirty: Option<u64>) -> Result<(), AllocError>
    ensures { OnOk result
        (string_bytes text.new ≡ string_bytes text.old ++ needs_text accessed.now dirty) }
{
    text.push_str("  needs: accessed in")?;
    push_words(text, accessed)?;
    push_dirty(text, dirty)
}

/// Appends that, where some do.
fn push_needs(text: &mut String, accessed: &[u64], dirty: Option<u64>) -> Result<(), AllocError>
    ensures { OnOk result
        (string_bytes text.new ≡ string_bytes text.old ++ needs_line accessed.now dirty) }
{
    if accessed.is_empty() {
        Ok(())
    } else {
        push_needed(text, accessed, dirty)
    }
}

fn push_flags(text: &mut String, flags: &Option<NeededFlags>) -> Result<(), AllocError>
    ensures { OnOk result
        (string_bytes text.new ≡ string_bytes text.old ++ flags_line flags.now) }
{
    match flags {
        Some(needed) => push_needs(text, &needed.accessed, needed.dirty),
        None => Ok(()),
    }
}

/// Appends an outcome, and what gives it.
pub(crate) fn push_told(text: &mut String, told: &OutcomeWalk) -> Result<(), AllocError>
    ensures { OnOk result
        (string_bytes text.new ≡ string_bytes text.old ++ told_text told.now) }
{
    push_allowed(text, &told.allowed)?;
    push_walk(text, &told.walk)?;
    push_since(text, told.since)?;
    push_flags(text, &told.flags)
}
