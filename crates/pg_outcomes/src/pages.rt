//! The addresses that an access may get from any value that a word had.

ghost use Rattle.std.specs.Prelude.{◌≡◌, ◌≤◌, ◌++◌, length, IfOk, OnOk, option_to_list};
ghost use Rattle.pg_outcomes.specs.Pages.{page_at, with_pages, HavePages};
ghost use Rattle.std.specs.List.Sorted.{IsStrictlyIncreasing};
ghost use Rattle.pg_outcomes.specs.Pages.{AreAscending};

use pg_entry::{Entry, Level};
use pg_event::entry_address;
use pg_reach::page_by;
use pg_search::Seen;
use std::alloc::{AllocError, Global};

/// The physical address that an access to a linear one gets by the value that a word has at a
/// moment, where the word may be the entry of the level: its place in a table is that of the entry.
fn page_at(seen: &Seen<'_>, moment: u32, word: u64, level: Level, la: u64) -> Option<u64>
    ensures { result ≡ page_at seen.now moment word level la }
{
    if word % 4096 != entry_address(0, level, la) {
        return None;
    }
    let cfg = seen.header().cfg;
    page_by(cfg, level, Entry(seen.value_at(moment, word)), la)
}

/// Adds an address, where there is one.
fn add_some(pages: &mut Vec<u64>, page: Option<u64>) -> Result<(), AllocError>
    ensures { OnOk result (pages.new.items ≡ pages.old.items ++ option_to_list page) }
{
    if let Some(page) = page {
        pages.push(page)?;
    }
    Ok(())
}

/// Adds those addresses that a word gives at a moment, as the entry of any level.
fn add_pages(
    pages: &mut Vec<u64>,
    seen: &Seen<'_>,
    moment: u32,
    word: u64,
    la: u64,
) -> Result<(), AllocError>
    ensures { OnOk result
        (pages.new.items ≡ with_pages pages.old.items seen.now moment word la) }
{
    add_some(pages, page_at(seen, moment, word, Level::Three, la))?;
    add_some(pages, page_at(seen, moment, word, Level::Two, la))?;
    add_some(pages, page_at(seen, moment, word, Level::One, la))
}

/// The addresses by all values that words had up to a moment: each write, and each update of flags,
/// gives a value.
fn pages_before(
    alloc: Global,
    seen: &Seen<'_>,
    moment: u32,
    la: u64,
) -> Result<Vec<u64>, AllocError>
    requires { moment ≤ length seen.now.events }
    ensures { IfOk result (λ pages. HavePages seen.now moment la pages.items) }
{
    let mut pages = Vec::new(alloc);
    let written = seen.written(alloc, moment)?;
    for left in &written {
        add_pages(&mut pages, seen, left.since, left.word, la)?;
    }
    Ok(pages)
}

/// The same numbers, ascending, each once.
fn ascending(numbers: Vec<u64>) -> Vec<u64>
    ensures { AreAscending numbers.items result.items }
{
    let mut numbers = numbers;
    numbers.sort_unstable();
    numbers.dedup();
    numbers
}

/// Those addresses, ascending, each once.
pub(crate) fn pages(
    alloc: Global,
    seen: &Seen<'_>,
    moment: u32,
    la: u64,
) -> Result<Vec<u64>, AllocError>
    requires { moment ≤ length seen.now.events }
    ensures pages { IfOk result (λ pages. HavePages seen.now moment la pages.items) }
    ensures rise { IfOk result (λ pages. IsStrictlyIncreasing pages.items) }
{
    Ok(ascending(pages_before(alloc, seen, moment, la)?))
}
