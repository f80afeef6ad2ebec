ghost use Rattle.std.specs.Prelude.{◌≡◌};
ghost use Rattle.pg_search.specs.Freshness.{is_as_fresh};

/// Whether these moments are as fresh as others, or fresher.
pub fn are_as_fresh(a: &[u32], b: &[u32]) -> bool
    ensures { result ≡ is_as_fresh a.now b.now }
{
    let Some((x, before)) = a.split_last() else {
        return true;
    };
    let Some((y, others)) = b.split_last() else {
        return false;
    };
    x > y || (x == y && are_as_fresh(before, others))
}
