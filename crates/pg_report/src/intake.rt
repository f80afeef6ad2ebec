//! Whole records, from any source.

ghost use Rattle.std.specs.Prelude.{◌≡◌, ◌≢◌, [], ℕ, List, Option, Ok, Err, IfSome, IfOk, IfErr};
ghost use Rattle.std.specs.Prelude.{OnOk};
ghost use Rattle.pg_event.specs.Spelling.{IsHead};
ghost use Rattle.pg_codec.specs.declared.stage.Stage.TheVariants.{Start};
ghost use Rattle.pg_codec.specs.Reads.{Pulls};
ghost use Rattle.pg_codec.specs.Readers.{stage_after_header};
ghost use Rattle.pg_report.specs.Changes.{drawn};
ghost use Rattle.pg_codec.specs.Streams.{FailsWithDevice};
ghost use Rattle.pg_report.specs.Going.{IsGoing};
ghost use Rattle.pg_report.specs.Intake.{IsErrorOf, header_up_to, ReadsRecord, TellsDevice};
ghost use Rattle.pg_report.specs.Intake.{is_device};

use crate::error::AuditError;
use pg_check::History;
use pg_codec::{ReadError, RecordReader, Source};
use pg_event::{Header, Version};
use std::alloc::Global;

/// At most this many parts follow a header: up to 2^32 - 1 segments, and the end mark.
pub const MOST_CHUNKS: u64 = 1 << 32;

/// Why a record was not read, as an audit gives it. A reader that has refused is not asked again,
/// so that it never fails for that.
pub fn audit_error(error: ReadError) -> AuditError
    requires { error ≢ ReadError.Failed }
    ensures { IsErrorOf error result }
{
    match error {
        ReadError::Refused(refusal) => AuditError::Refused(refusal),
        ReadError::Device => AuditError::Device,
        ReadError::Memory => AuditError::Memory,
        ReadError::Failed => unreachable!(),
    }
}

/// The header of a record of a version up to this.
pub(crate) fn read_header_up_to<R: Source>(
    alloc: Global,
    reader: &mut RecordReader,
    source: &mut R,
    newest: Version,
) -> Result<Header, ReadError>
    requires { reader.old.stage ≡ Start }
    ensures pulls { Pulls R.Source (header_up_to newest)
        (reader.old.unread, source.old) (reader.new.unread, source.new) result }
    ensures head { IfOk result (λ h. IsHead h) }
    ensures stage { reader.new.stage ≡ stage_after_header result }
{
    match newest {
        Version::One => reader.read_old_header(alloc, source),
        Version::Two => reader.read_header(alloc, source),
    }
}

/// Reads what is left of a record behind its header, and adds its events.
fn read_rest<R: Source>(
    alloc: Global,
    reader: &mut RecordReader,
    source: &mut R,
    history: &mut History,
) -> Result<(), AuditError>
    requires going { (newest : Version) × (start : Option (List ℕ)) × (f : ℕ)
        × IsGoing R.Source newest start f
        (reader.old.unread, source.old) reader.old.stage history.old 0 }
    ensures whole { (newest : Version) (start : Option (List ℕ)) (f : ℕ) →
        IsGoing R.Source newest start f
        (reader.old.unread, source.old) reader.old.stage history.old 0 →
        OnOk result (IfSome start (λ bytes. ReadsRecord newest bytes (Ok history.new))) }
    ensures refused { (newest : Version) (start : Option (List ℕ)) (f : ℕ) →
        IsGoing R.Source newest start f
        (reader.old.unread, source.old) reader.old.stage history.old 0 →
        IfErr result (λ e. IfSome start (λ bytes. ReadsRecord newest bytes (Err e))) }
    ensures device { (newest : Version) (start : Option (List ℕ)) (f : ℕ) →
        IsGoing R.Source newest start f
        (reader.old.unread, source.old) reader.old.stage history.old 0 →
        FailsWithDevice is_device f (R.failed source.new) result }
    ensures alone { (result ≢ Err AuditError.Thread) × (result ≢ Err AuditError.Checkers) }
{
    for _ in 0..MOST_CHUNKS {
        match reader.read_segment(alloc, source) {
            Ok(Some(events)) => history.extend(&events)?,
            Ok(None) => return Ok(()),
            Err(error) => return Err(audit_error(error)),
        }
    }
    unreachable!()
}

/// The history of a record whose header was read: reads what is left of the record.
fn read_behind<R: Source>(
    alloc: Global,
    reader: &mut RecordReader,
    source: &mut R,
    header: Header,
) -> Result<History, AuditError>
    requires head { IsHead header }
    requires going { (newest : Version) × (start : Option (List ℕ)) × (f : ℕ)
        × IsGoing R.Source newest start f
        (reader.old.unread, source.old) reader.old.stage (record { head = header; events = [] }) 0 }
    ensures reads { (newest : Version) (start : Option (List ℕ)) (f : ℕ) →
        IsGoing R.Source newest start f (reader.old.unread, source.old) reader.old.stage
        (record { head = header; events = [] }) 0 →
        IfSome start (λ bytes. ReadsRecord newest bytes result) }
    ensures device { (newest : Version) (start : Option (List ℕ)) (f : ℕ) →
        IsGoing R.Source newest start f (reader.old.unread, source.old) reader.old.stage
        (record { head = header; events = [] }) 0 →
        FailsWithDevice is_device f (R.failed source.new) result }
    ensures alone { (result ≢ Err AuditError.Thread) × (result ≢ Err AuditError.Checkers) }
{
    let mut history = History::new(alloc, header)?;
    match read_rest(alloc, reader, source, &mut history) {
        Ok(()) => Ok(history),
        Err(error) => Err(error),
    }
}

/// Reads the record of a version up to this that a source has left, all of it, by a reader that has
/// read nothing.
fn read_by<R: Source>(
    alloc: Global,
    reader: &mut RecordReader,
    source: &mut R,
    newest: Version,
) -> Result<History, AuditError>
    requires { reader.old ≡ record { unread = []; stage = Start } }
    ensures reads { IfSome (R.left source.old) (λ bytes. ReadsRecord newest bytes result) }
    ensures device { TellsDevice (drawn R.Source source.old source.new) result }
    ensures alone { (result ≢ Err AuditError.Thread) × (result ≢ Err AuditError.Checkers) }
{
    match read_header_up_to(alloc, reader, source, newest) {
        Ok(header) => read_behind(alloc, reader, source, header),
        Err(error) => Err(audit_error(error)),
    }
}

/// Reads the record of a version up to this that a source has left, all of it.
fn read_up_to<R: Source>(
    alloc: Global,
    source: &mut R,
    newest: Version,
) -> Result<History, AuditError>
    ensures reads { IfSome (R.left source.old) (λ bytes. ReadsRecord newest bytes result) }
    ensures device { TellsDevice (drawn R.Source source.old source.new) result }
    ensures alone { (result ≢ Err AuditError.Thread) × (result ≢ Err AuditError.Checkers) }
{
    let mut reader = RecordReader::new(alloc)?;
    read_by(alloc, &mut reader, source, newest)
}

/// Reads the record that a source has left, all of it.
pub fn read_record<R: Source>(alloc: Global, source: &mut R) -> Result<History, AuditError>
    ensures reads { IfSome (R.left source.old) (λ bytes. ReadsRecord Version.Two bytes result) }
    ensures device { TellsDevice (drawn R.Source source.old source.new) result }
    ensures alone { (result ≢ Err AuditError.Thread) × (result ≢ Err AuditError.Checkers) }
{
    read_up_to(alloc, source, Version::Two)
}

/// Reads the version 1 record that a source has left, all of it. A version 2 record is refused at
/// its version field, whatever follows.
pub fn read_old_record<R: Source>(alloc: Global, source: &mut R) -> Result<History, AuditError>
    ensures reads { IfSome (R.left source.old) (λ bytes. ReadsRecord Version.One bytes result) }
    ensures device { TellsDevice (drawn R.Source source.old source.new) result }
    ensures alone { (result ≢ Err AuditError.Thread) × (result ≢ Err AuditError.Checkers) }
{
    read_up_to(alloc, source, Version::One)
}
