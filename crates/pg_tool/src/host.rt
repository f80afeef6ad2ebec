//! What the program is given besides its streams.

use crate::signals::Signals;

/// What the program is given besides its streams: what opens and creates files, whether standard
/// output is a terminal, and who comes to know, where the words of the command line ask for
/// progress, how far it is.
#[derive(Drop)]
pub struct Host<'a, F, G, P> {
    /// Opens the file of a name. It gives `None` where that can't be opened.
    pub opener: F,
    /// Creates the file of a name, or empties it. It gives `None` where that can't be done.
    pub creator: G,
    /// Whether standard output is a terminal, which gets no bytes that are no text.
    pub is_terminal: bool,
    /// What the program and the source of its input tell one another. The program sets its part
    /// before anything is read or opened.
    pub signals: &'a Signals,
    /// Sees how far a guest's processors have come, each with a thread of its own.
    pub observer: P,
}
