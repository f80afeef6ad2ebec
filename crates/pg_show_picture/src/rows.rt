//! Which row each event and each entry has.

ghost use Rattle.std.specs.Prelude.{◌≡◌, ◌+◌, ◌*◌, ◌<◌, ◌≤◌, ◌^◌, length};
ghost use Rattle.pg_show_picture.specs.Layout.{row_top, read_below, read_at, below, event_row};
ghost use Rattle.pg_show_picture.specs.Layout.{entry_row, height};

use pg_explain::WalkEntry;

/// How many of these numbers are below a limit.
fn below(numbers: &[u32], limit: u32) -> u64
    ensures count { result ≡ below numbers.now limit }
    ensures within { result ≤ length numbers.now }
{
    let mut count = 0;
    for number in numbers {
        if *number < limit {
            count += 1;
        }
    }
    count
}

/// How many of these entries are read at moments below a limit.
fn read_below(walk: &[WalkEntry], limit: u64) -> u64
    ensures count { result ≡ read_below walk.now limit }
    ensures within { result ≤ length walk.now }
{
    let mut count = 0;
    for entry in walk {
        if (entry.step.moment as u64) < limit {
            count += 1;
        }
    }
    count
}

/// How many of these entries are read at a moment.
fn read_at(walk: &[WalkEntry], moment: u32) -> u64
    ensures count { result ≡ read_at walk.now moment }
    ensures within { result ≤ length walk.now }
{
    let mut count = 0;
    for entry in walk {
        if entry.step.moment == moment {
            count += 1;
        }
    }
    count
}

/// The top of a row.
fn row_top(row: u64) -> u64
    requires { row < 2 ^ 40 }
    ensures top { result ≡ row_top row }
    ensures within { result < 2 ^ 50 }
{
    120 + 30 * row
}

/// The top of an event's row.
pub(crate) fn event_top(numbers: &[u32], walk: &[WalkEntry], number: u32) -> u64
    requires numbers { length numbers.now < 2 ^ 32 }
    requires walk { length walk.now ≤ 4 }
    ensures top { result ≡ row_top (event_row numbers.now walk.now number) }
    ensures within { result < 2 ^ 50 }
{
    row_top(below(numbers, number) + read_below(walk, number as u64 + 1))
}

/// The top of the row of an entry, by its place in the walk and its moment.
pub(crate) fn entry_top(numbers: &[u32], walk: &[WalkEntry], place: usize, moment: u32) -> u64
    requires numbers { length numbers.now < 2 ^ 32 }
    requires walk { length walk.now ≤ 4 }
    requires place { place ≤ length walk.now }
    ensures top { result ≡ row_top (entry_row numbers.now walk.now place moment) }
    ensures within { result < 2 ^ 50 }
{
    let earlier = read_below(walk, moment as u64) + read_at(&walk[..place], moment);
    row_top(below(numbers, moment) + earlier)
}

/// The height of all rows.
pub(crate) fn height(numbers: &[u32], walk: &[WalkEntry]) -> u64
    requires numbers { length numbers.now < 2 ^ 32 }
    requires walk { length walk.now ≤ 4 }
    ensures { result ≡ height numbers.now walk.now }
{
    row_top((numbers.len() + walk.len()) as u64)
}
