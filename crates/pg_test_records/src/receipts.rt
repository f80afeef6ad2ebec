//! Receipts of events, and scripts as texts.

use crate::written::{Written, event_of};
use pg_guest::{Script, ScriptError, ScriptRefusal};
use pg_world::Receipt;
use std::alloc::Global;

/// The receipt of an event that is written so.
pub(crate) fn receipt_of(moment: u32, written: &Written) -> Option<Receipt> {
    let event = event_of(written)?;
    Some(Receipt { moment, event })
}

/// The script of a text; one that is too long has a refusal with no line.
pub(crate) fn script_of(alloc: Global, text: &[u8]) -> Result<Script, ScriptError> {
    if text.len() > 1 << 25 {
        return Err(ScriptError {
            line: 0,
            refusal: ScriptRefusal::Memory,
        });
    }
    Script::read(alloc, text)
}
