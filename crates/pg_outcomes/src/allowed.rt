//! An outcome that an access may have.

use pg_event::{Moments, Outcome};

/// An outcome that an access may have, and the freshest moments that witness it.
#[derive(Clone, Copy, PartialEq, Eq)]
pub struct Allowed {
    pub outcome: Outcome,
    pub moments: Moments,
}
