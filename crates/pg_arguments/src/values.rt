//! What the values of options spell.

ghost use Rattle.std.specs.Prelude.{◌≡◌, ◌≢◌, ◌++◌, ℕ, List, Some, codes, option_map};
ghost use Rattle.std.specs.Prelude.{MatchOption};
ghost use Rattle.pg_arguments.specs.Values.{IsNumberIn, AreAsked, IsAsked};
ghost use Rattle.pg_arguments.specs.Values.{AreHexDigits, IsAddressIn, IsCpuIn, IsMost};
ghost use Rattle.pg_arguments.specs.Values.{IsPageIn, IsOptional, IsTelling, Reads};

use crate::checkers::Checkers;
use crate::request::Telling;
use pg_event::is_canonical;

/// The number that a text spells by digits alone.
fn number_in(text: &str) -> Option<u32>
    ensures { Reads result (IsNumberIn text.now) }
{
    // `parse` takes a plus sign too.
    if text.as_bytes().first() == Some(&b'+') {
        return None;
    }
    text.parse::<u32>().ok()
}

/// So many checkers, if the text spells their number by digits alone.
pub(crate) fn checkers_of(text: Option<&str>) -> Option<Checkers>
    ensures { Reads result (AreAsked (option_map (λ s. s.now) text.entry)) }
{
    match text {
        Some(text) => Checkers::new(number_in(text)?),
        None => Some(Checkers::default()),
    }
}

/// So many, if the text spells their number by digits alone.
pub(crate) fn most_of(text: Option<&str>) -> Option<u32>
    ensures { Reads result (IsMost (option_map (λ s. s.now) text.entry)) }
{
    let Some(text) = text else {
        return Some(100);
    };
    let most = number_in(text)?;
    if most < 1 || most > 1_000_000 {
        return None;
    }
    Some(most)
}

/// What is told of bad events, where `--event` is given with this text.
fn told_at(all: bool, svg: bool, most: Option<&str>, event: &str) -> Option<Telling>
    ensures { Reads result (IsTelling all svg
        (option_map (λ s. s.now) most.entry) (Some event.now)) }
{
    if all || svg || most.is_some() {
        return None;
    }
    match number_in(event) {
        Some(number) => Some(Telling::At(number)),
        None => None,
    }
}

/// What is told of bad events, where `--all` and `--svg` are given or not, and `--most` and
/// `--event` with these texts.
pub(crate) fn telling_of(
    all: bool,
    svg: bool,
    most: Option<&str>,
    event: Option<&str>,
) -> Option<Telling>
    ensures { Reads result (IsTelling all svg
        (option_map (λ s. s.now) most.entry) (option_map (λ s. s.now) event.entry)) }
{
    if let Some(text) = event {
        return told_at(all, svg, most, text);
    }
    if all && svg {
        return None;
    }
    if all {
        return Some(Telling::All(most_of(most)?));
    }
    if most.is_some() {
        return None;
    }
    if svg {
        return Some(Telling::Picture);
    }
    Some(Telling::First)
}

/// The event number that the text spells by digits alone, and `other` where there is no text.
pub(crate) fn number_of(text: Option<&str>, other: u32) -> Option<u32>
    ensures { Reads result (IsAsked other (option_map (λ s. s.now) text.entry)) }
{
    match text {
        Some(text) => number_in(text),
        None => Some(other),
    }
}

/// The event number that the text spells by digits alone, if there is a text.
pub(crate) fn event_of(text: Option<&str>) -> Option<Option<u32>>
    ensures { Reads result (IsOptional IsNumberIn (option_map (λ s. s.now) text.entry)) }
{
    match text {
        Some(text) => Some(Some(number_in(text)?)),
        None => Some(None),
    }
}

/// What follows `0x` in a text.
fn after_0x(text: &str) -> Option<&str>
    ensures { MatchOption result ((digits : List ℕ) → text.now ≢ codes "0x" ++ digits)
        (λ digits. text.now ≡ codes "0x" ++ digits.now) }
{
    text.strip_prefix("0x")
}

/// The number that 1 to 16 hexadecimal digits spell.
fn hex_in(digits: &str) -> Option<u64>
    ensures { Reads result (AreHexDigits digits.now) }
{
    // `from_str_radix` takes a plus sign too.
    if digits.len() > 16 || digits.as_bytes().first() == Some(&b'+') {
        return None;
    }
    u64::from_str_radix(digits, 16).ok()
}

/// The address that a text spells by `0x` and its digits.
fn address_in(text: &str) -> Option<u64>
    ensures { Reads result (IsAddressIn text.now) }
{
    hex_in(after_0x(text)?)
}

fn cpu_in(text: &str) -> Option<u16>
    ensures { Reads result (IsCpuIn text.now) }
{
    let cpu = number_in(text)?;
    if cpu > 65_535 {
        return None;
    }
    Some(cpu as u16)
}

fn page_in(text: &str) -> Option<u64>
    ensures { Reads result (IsPageIn text.now) }
{
    let address = address_in(text)?;
    if !is_canonical(address) {
        return None;
    }
    Some(address)
}

/// The processor that the text spells, if there is a text.
pub(crate) fn cpu_of(text: Option<&str>) -> Option<Option<u16>>
    ensures { Reads result (IsOptional IsCpuIn (option_map (λ s. s.now) text.entry)) }
{
    match text {
        Some(text) => Some(Some(cpu_in(text)?)),
        None => Some(None),
    }
}

/// The address of a page that the text spells, if there is a text.
pub(crate) fn page_of(text: Option<&str>) -> Option<Option<u64>>
    ensures { Reads result (IsOptional IsPageIn (option_map (λ s. s.now) text.entry)) }
{
    match text {
        Some(text) => Some(Some(page_in(text)?)),
        None => Some(None),
    }
}

/// The address of a word that the text spells, if there is a text.
pub(crate) fn word_of(text: Option<&str>) -> Option<Option<u64>>
    ensures { Reads result (IsOptional IsAddressIn (option_map (λ s. s.now) text.entry)) }
{
    match text {
        Some(text) => Some(Some(address_in(text)?)),
        None => Some(None),
    }
}
