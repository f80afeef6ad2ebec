/// Whether the bytes of an access and of an assist name its moments.
#[derive(Clone, Copy)]
pub enum Naming {
    /// They do, as in records of versions 1 and 2.
    Named,
    /// They do not, as in records with spans and in logs. The event has one moment, 0, which means
    /// nothing.
    Bare,
}
