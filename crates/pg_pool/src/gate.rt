//! What is called round each piece of work.

/// A gate through which each piece of work goes, with the worker and the number of the piece. It
/// can watch work, or hold it back; it changes no answer.
pub trait Gate: Sync {
    /// Called by the worker before the piece is done.
    fn enter(&self, worker: u32, number: u64);

    /// Called by the worker after the piece is done.
    fn leave(&self, worker: u32, number: u64);
}

/// The gate that does nothing.
pub struct OpenGate;

impl Gate for OpenGate {
    fn enter(&self, _worker: u32, _number: u64) {}

    fn leave(&self, _worker: u32, _number: u64) {}
}
