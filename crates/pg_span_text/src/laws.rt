//! A law of the tests that stand in a cause. The function does nothing: its contract is the law.

ghost use Rattle.pg_span_text.specs.Laws.{DropsAllOfAPage};

/// The event of a line `read after:` must drop all that is cached of the page under the PCID and is
/// not global: the translations by pages of each size, and the paging-structure-cache entries.
pub fn drops_all_of_a_page()
    ensures { DropsAllOfAPage }
{}
