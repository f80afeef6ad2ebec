//! What the lines before the instructions say by their words.

ghost use Rattle.std.specs.Prelude.{◌≡◌, ◌<◌, ◌≤◌, ◌^◌, IfOk};
ghost use Rattle.pg_event.specs.Heads.{most_segment};
ghost use Rattle.pg_guest.specs.Heading.{version_in, setting_at, settings_at, machine_in, IsCfg};
ghost use Rattle.pg_guest.specs.Heading.{segment_in, start_in, names_processor};
ghost use Rattle.pg_guest.specs.Answers.{Agrees};

use crate::script_refusal::ScriptRefusal;
use crate::words::{
    Words, after_keyword, bit_word, dec_word, ended, hex_word, same_bytes, word_of,
};
use pg_entry::{Cfg, CfgFlags, Rules};
use pg_event::{LEAST_MAXPHYADDR, MOST_MAXPHYADDR, MOST_SEGMENT, Version};

/// `pcid-guest 1` or `pcid-guest 2`.
#[tactic(auto, unfolding(crate::specs::Heading::version_in))]
pub(crate) fn version_of(words: &Words) -> Result<Version, ScriptRefusal>
    ensures { Agrees (λ x. x) result (version_in words.now) }
{
    let rest = after_keyword(b"pcid-guest", words)?;
    let (word, rest) = word_of(&rest)?;
    match ended(word, &rest)? {
        b"1" => Ok(Version::One),
        b"2" => Ok(Version::Two),
        _ => Err(ScriptRefusal::Instruction),
    }
}

/// The bit of a setting if its word comes next, else 0; and the words after it.
fn setting_of<'a>(name: &[u8], bit: u8, words: Words<'a>) -> (u8, Words<'a>)
    ensures value { result ≡ setting_at name.now bit words.entry }
    ensures bound { result.0 ≤ bit }
{
    match words.split_first() {
        Some((word, rest)) if same_bytes(word, name) => (bit, rest),
        _ => (0, words),
    }
}

/// The flags of any of the settings in their order.
#[tactic(auto, unfolding(crate::specs::Heading::settings_at))]
fn settings_of<'a>(words: Words<'a>) -> (u8, Words<'a>)
    ensures value { result ≡ settings_at words.entry }
    ensures bound { result.0 < 16 }
{
    let (wp, rest) = setting_of(b"wp", CfgFlags::WP.0, words);
    let (nxe, rest) = setting_of(b"nxe", CfgFlags::NXE.0, rest);
    let (smep, rest) = setting_of(b"smep", CfgFlags::SMEP.0, rest);
    let (smap, rest) = setting_of(b"smap", CfgFlags::SMAP.0, rest);
    (wp + nxe + smep + smap, rest)
}

/// `machine` and MAXPHYADDR, and any of `wp nxe smep smap` in this order.
#[tactic(auto, unfolding(crate::specs::Heading::machine_in))]
pub(crate) fn machine_of(words: &Words) -> Result<Cfg, ScriptRefusal>
    ensures value { Agrees (λ x. x) result (machine_in words.now) }
    ensures range { IfOk result (λ cfg. IsCfg cfg) }
{
    let rest = after_keyword(b"machine", words)?;
    let (maxphyaddr, rest) = dec_word(&rest)?;
    if maxphyaddr < LEAST_MAXPHYADDR as u64 || maxphyaddr > MOST_MAXPHYADDR as u64 {
        return Err(ScriptRefusal::Instruction);
    }
    let (flags, rest) = settings_of(rest);
    let flags = CfgFlags(flags);
    let maxphyaddr = maxphyaddr as u8;
    ended(
        Cfg {
            flags,
            m: maxphyaddr,
            rules: Rules::ALL,
        },
        &rest,
    )
}

/// `segment` and the events of a full segment.
#[tactic(auto, unfolding(crate::specs::Heading::segment_in))]
pub(crate) fn segment_of(words: &Words) -> Result<u32, ScriptRefusal>
    ensures value { Agrees (λ x. x) result (segment_in words.now) }
    ensures range { IfOk result (λ size. (1 ≤ size) × (size ≤ most_segment)) }
{
    let rest = after_keyword(b"segment", words)?;
    let (size, rest) = dec_word(&rest)?;
    if size < 1 || size > MOST_SEGMENT as u64 {
        return Err(ScriptRefusal::Instruction);
    }
    ended(size as u32, &rest)
}

/// `cpu`, a CR3, and whether there are global pages.
#[tactic(auto, unfolding(crate::specs::Heading::start_in))]
pub(crate) fn start_of(maxphyaddr: u8, words: &Words) -> Result<(u64, bool), ScriptRefusal>
    requires { maxphyaddr ≤ 52 }
    ensures value { Agrees (λ x. x) result (start_in maxphyaddr words.now) }
    ensures range { IfOk result (λ start. start.0 < 2 ^ maxphyaddr) }
{
    let rest = after_keyword(b"cpu", words)?;
    let (cr3, rest) = hex_word(&rest)?;
    let (pge, rest) = bit_word(&rest)?;
    if cr3 >= 1 << maxphyaddr {
        return Err(ScriptRefusal::Instruction);
    }
    ended((cr3, pge), &rest)
}

/// Whether the first word is `cpu`.
pub(crate) fn names_processor(words: &Words) -> bool
    ensures { result ≡ names_processor words.now }
{
    matches!(words.split_first(), Some((b"cpu", _)))
}
