/// The events of a run from one up to, not with, another.
#[derive(Clone, Copy)]
pub struct Window {
    /// The number of the first.
    pub from: u32,
    /// The number of the one before which it ends. Where it is not above `from`, no event is in the
    /// window.
    pub to: u32,
}
