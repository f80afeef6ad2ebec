/// In which form an answer is written.
#[derive(Clone, Copy)]
pub enum Format {
    /// Lines for a person.
    Text,
    /// An object a line.
    Json,
    /// The cause of a rejection as one SVG, and of an acceptance the text.
    Picture,
}
