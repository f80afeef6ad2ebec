// SPDX-License-Identifier: MIT OR Apache-2.0
//! What one processor of the recorder caches: translations and paging-structure-cache entries, each
//! with the moments at which it was read (Intel SDM, vol. 3, 4.10).
#![tactic(auto)]

mod entries;
mod law;
mod lookup;
mod page;
mod shadow;
mod slot;
mod space;

pub use entries::{Found, KeptLeaf, KeptTable};
pub use law::entries_may_be_kept;
pub use shadow::Shadow;
