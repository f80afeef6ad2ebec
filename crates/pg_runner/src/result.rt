use pg_event::Record;
use pg_report::Report;
use pg_world::Receipt;

/// What a run of a script came to.
#[derive(Drop)]
pub struct RunResult {
    /// Its record.
    pub trace: Record,
    /// The report of that record.
    pub report: Report,
    /// For each processor the receipts of its events, in their order.
    pub transcripts: Vec<Vec<Receipt>>,
}
