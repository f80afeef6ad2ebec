use pg_event::Selection;

/// What is asked of a record with one order.
#[derive(Clone, Copy)]
pub enum Question {
    /// Its report.
    Check,
    /// That, and a summary of all bad events.
    CheckAll,
    /// Whether some run of the machine has its events.
    Certify,
    /// Its report, and the cause of a rejection.
    Explain,
    /// The cause of a rejection at the event with this number or before it; else its outcomes.
    ExplainAt(u32),
    /// Its report, the causes of so many bad events at most, and the summary.
    ExplainAll(u32),
    /// The events that a selection asks for.
    Show(Selection),
    /// The outcomes of the event with a number, or of the last access where no number is given; so
    /// many of them are told at most.
    Outcomes(Option<u32>, u32),
}
