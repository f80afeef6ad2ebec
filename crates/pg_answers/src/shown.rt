use pg_report::Report;

/// What `run-of` wrote.
#[derive(Clone, Copy)]
pub enum Shown {
    /// The text of a run that has the record's events.
    Run,
    /// The report of a record that is not accepted.
    Report,
}

/// A report with its text.
#[derive(Drop)]
pub struct ReportText {
    pub report: Report,
    pub text: String,
}

/// What came of moments for a record's events.
#[derive(Drop)]
pub enum Naming {
    /// The record with moments that were found.
    Named,
    /// There are none: the report of the no, and its cause.
    Denied(String),
}
