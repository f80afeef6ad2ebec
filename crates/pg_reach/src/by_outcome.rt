//! Moments that were found for an access, by its outcome.

ghost use Rattle.std.specs.Prelude.{◌≡◌, None, OnOk};
ghost use Rattle.pg_event.specs.declared.event.Outcome.{Outcome as Outcomes};
ghost use Rattle.pg_reach.specs.ByOutcome.{found_at, IsPut};

use pg_event::{Moments, Outcome};
use std::alloc::{AllocError, Global};
use std::collections::HashMap;

/// For each outcome of an access moments that witness it, where some were found.
#[derive(Drop)]
pub struct ByOutcome {
    /// By the physical byte address of a page.
    pub pages: HashMap<u64, Moments>,
    /// By the error code of a page fault.
    pub faults: HashMap<u16, Moments>,
}

impl ByOutcome {
    /// None yet.
    pub(crate) fn new(alloc: Global) -> ByOutcome
        ensures { (o : Outcomes) → found_at result o ≡ None }
    {
        ByOutcome {
            pages: HashMap::new(alloc),
            faults: HashMap::new(alloc),
        }
    }

    /// The moments that were found for an outcome.
    pub fn get(&self, outcome: Outcome) -> Option<Moments>
        ensures { result ≡ found_at self.now outcome }
    {
        match outcome {
            Outcome::Page(page) => self.pages.get(&page).copied(),
            Outcome::Fault(code) => self.faults.get(&code).copied(),
        }
    }

    /// Keeps moments for an outcome, in the place of earlier ones.
    pub(crate) fn put(&mut self, outcome: Outcome, moments: Moments) -> Result<(), AllocError>
        ensures { OnOk result (IsPut (found_at self.old) (found_at self.new) outcome
            moments) }
    {
        match outcome {
            Outcome::Page(page) => self.pages.insert(page, moments)?,
            Outcome::Fault(code) => self.faults.insert(code, moments)?,
        };
        Ok(())
    }
}
