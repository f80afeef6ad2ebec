/// What is written of an answer.
#[derive(Clone, Copy, Debug, PartialEq, Eq)]
pub enum Asked {
    /// The report.
    Report,
    /// Of a no to whose event no run comes the picture of its cause, and else the report.
    Picture,
    /// Of a yes the record of version 1 or 2 in the order that was found, with moments that witness
    /// its events.
    Record,
    /// Of a yes the order: the number of each event, a line each.
    Order,
    /// Of a yes the outcomes that the event with a number may have after those before it in the
    /// order that was found, or the last access where no number is given; so many of them are told
    /// at most.
    Outcomes(Option<u32>, u32),
    /// The trace of its events, with the event of a no to which no run comes.
    Trace,
}
