ghost use Rattle.std.specs.Prelude.{◌≡◌};
ghost use Rattle.pg_runner.specs.Seats.{counts};

use pg_runner::{Counts, Progress};
use std::alloc::Global;
use std::test::Fail;

fn at(events: u32, segments: u32) -> Counts
    ensures { result ≡ counts events segments }
{
    Counts { events, segments }
}

/// What a reader sees before and after each store, and another at the end.
fn followed(alloc: Global) -> Result<[Counts; 4], Fail> {
    let (progress, mut publisher, mut seats) = Progress::open(alloc, 2)?;
    let mut other = seats.pop().ok_or("no second reader")?;
    let mut reader = seats.pop().ok_or("no reader")?;
    let none = progress.read(&mut reader);
    publisher.store(&progress, at(9, 0));
    let first = progress.read(&mut reader);
    publisher.store(&progress, at(10, 1));
    publisher.store(&progress, at(7, 0));
    let last = progress.read(&mut reader);
    Ok([none, first, last, progress.read(&mut other)])
}

/// A reader sees what was stored last, and each number stays at the greatest that was stored.
#[test]
fn reads_follow_stores(rt: HostRuntime) -> Result<(), Fail> {
    assert!(rt; followed(rt.alloc())? == [at(0, 0), at(9, 0), at(10, 1), at(10, 1)]);
    Ok(())
}

const MOST: u32 = 4_294_967_295;

/// What one reader sees before it ends, and another one after the end of two.
fn ended(alloc: Global) -> Result<[Counts; 2], Fail> {
    let (progress, mut publisher, mut seats) = Progress::open(alloc, 3)?;
    let other = seats.pop().ok_or("no third reader")?;
    let mut last = seats.pop().ok_or("no second reader")?;
    let mut reader = seats.pop().ok_or("no reader")?;
    publisher.store(&progress, at(MOST, MOST));
    let seen = progress.read(&mut last);
    reader.learn(&progress, last);
    publisher.retire(&progress, other);
    Ok([seen, progress.read(&mut reader)])
}

#[test]
fn readers_end(rt: HostRuntime) -> Result<(), Fail> {
    assert!(rt; ended(rt.alloc())? == [at(MOST, MOST), at(MOST, MOST)]);
    Ok(())
}
