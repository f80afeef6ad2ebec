//! Records that are certified as they are read.

ghost use Rattle.std.specs.Prelude.{◌≡◌, ◌≢◌, [], ℕ, List, Option, Err, OnOk, IfErr, IfSome};
ghost use Rattle.pg_codec.specs.declared.stage.Stage.TheVariants.{Start};
ghost use Rattle.pg_codec.specs.Streams.{FailsWithDevice};
ghost use Rattle.pg_report.specs.Changes.{drawn};
ghost use Rattle.pg_report.specs.Intake.{ReadsRecord, TellsDevice, is_device};
ghost use Rattle.pg_answers.specs.Accounts.{IsAccounting, IsAccountOfAll, ReadsAccount};

use pg_certify::StreamingCertifier;
use pg_codec::{RecordReader, Source};
use pg_event::Version;
use pg_report::{AuditError, MOST_CHUNKS, audit_error};
use std::alloc::Global;

/// Reads what is left of a record behind its header, and certifies it as it is read: no more events
/// are kept than those of a segment, and those that change something.
fn account_rest<R: Source>(
    alloc: Global,
    reader: &mut RecordReader,
    source: &mut R,
    account: &mut StreamingCertifier,
) -> Result<(), AuditError>
    requires going { (start : Option (List ℕ)) × (f : ℕ) × IsAccounting R.Source start f
        (reader.old.unread, source.old) reader.old.stage account.old 0 }
    ensures whole { (start : Option (List ℕ)) (f : ℕ) → IsAccounting R.Source start f
        (reader.old.unread, source.old) reader.old.stage account.old 0 →
        OnOk result (IsAccountOfAll start account.new) }
    ensures refused { (start : Option (List ℕ)) (f : ℕ) → IsAccounting R.Source start f
        (reader.old.unread, source.old) reader.old.stage account.old 0 →
        IfErr result (λ e. IfSome start (λ bytes. ReadsRecord Version.Two bytes (Err e))) }
    ensures device { (start : Option (List ℕ)) (f : ℕ) → IsAccounting R.Source start f
        (reader.old.unread, source.old) reader.old.stage account.old 0 →
        FailsWithDevice is_device f (R.failed source.new) result }
    ensures alone { (result ≢ Err AuditError.Thread) × (result ≢ Err AuditError.Checkers) }
{
    let mut room = Vec::new(alloc);
    for _ in 0..MOST_CHUNKS {
        match reader.read_segment_in(room, source) {
            Ok(Some(events)) => {
                account.window(&events)?;
                room = events;
            }
            Ok(None) => return Ok(()),
            Err(error) => return Err(audit_error(error)),
        }
    }
    unreachable!()
}

/// Reads the record that a source has left, all of it, by a new reader, and certifies it as it is
/// read.
fn account_by<R: Source>(
    alloc: Global,
    reader: &mut RecordReader,
    source: &mut R,
) -> Result<StreamingCertifier, AuditError>
    requires { reader.old ≡ record { unread = []; stage = Start } }
    ensures reads { ReadsAccount (R.left source.old) result }
    ensures device { TellsDevice (drawn R.Source source.old source.new) result }
    ensures alone { (result ≢ Err AuditError.Thread) × (result ≢ Err AuditError.Checkers) }
{
    let header = match reader.read_header(alloc, source) {
        Ok(header) => header,
        Err(error) => return Err(audit_error(error)),
    };
    let mut account = StreamingCertifier::new(alloc, header)?;
    match account_rest(alloc, reader, source, &mut account) {
        Ok(()) => Ok(account),
        Err(error) => Err(error),
    }
}

/// Reads the record that a source has left, all of it, and certifies it as it is read.
pub(crate) fn read_account<R: Source>(
    alloc: Global,
    source: &mut R,
) -> Result<StreamingCertifier, AuditError>
    ensures reads { ReadsAccount (R.left source.old) result }
    ensures device { TellsDevice (drawn R.Source source.old source.new) result }
    ensures alone { (result ≢ Err AuditError.Thread) × (result ≢ Err AuditError.Checkers) }
{
    let mut reader = RecordReader::new(alloc)?;
    account_by(alloc, &mut reader, source)
}
