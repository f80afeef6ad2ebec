//! A word that is written more often than the log keeps its values.

ghost use Rattle.std.specs.Prelude.{◌≤◌, IfOk};
ghost use Rattle.pg_moment.specs.Versions.{next_moment};

use pg_moment::Versions;
use pg_timeline::Probes;
use std::alloc::{AllocError, Global};
use std::test::Fail;

const WORD: u64 = 0x1000;

/// Memory after so many events, each of which writes 100 and its number to the word.
fn written(alloc: Global, events: u32) -> Result<Versions, AllocError>
    ensures { IfOk result (λ versions. next_moment versions ≤ events) }
{
    let mut versions = Versions::new(alloc);
    for i in 0..events {
        versions.note(i, WORD, 100 + i as u64)?;
    }
    Ok(versions)
}

#[test]
fn each_value_is_seen_from_its_event_to_the_next(rt: HostRuntime) -> Result<(), Fail> {
    for events in [1, 2, 32, 33, 34, 35, 70] {
        let versions = written(rt.alloc(), events)?;
        assert!(rt; versions.at(0, WORD) == 0);
        for moment in 1..events + 1 {
            assert!(rt; versions.at(moment, WORD) == 99 + moment as u64);
            assert!(rt; versions.at(moment, WORD + 8) == 0);
        }
        assert!(rt; versions.at(u32::MAX, WORD) == 99 + events as u64);
    }
    Ok(())
}

#[test]
fn a_value_of_the_middle_is_the_same_at_one_moment(rt: HostRuntime) -> Result<(), Fail> {
    for events in [30, 70] {
        let versions = written(rt.alloc(), events)?;
        let span = versions.span_at(20, WORD, &mut Probes::new());
        assert!(rt; (span.value, span.from, span.to) == (119, 20, 20));
    }
    Ok(())
}

#[test]
fn what_was_forgotten_is_written_anew(rt: HostRuntime) -> Result<(), Fail> {
    for events in [20, 70] {
        let mut versions = written(rt.alloc(), events)?;
        versions.forget_from(10);
        assert!(rt; versions.at(u32::MAX, WORD) == 109);
        versions.note(10, WORD, 500)?;
        assert!(rt; versions.at(10, WORD) == 109);
        assert!(rt; versions.at(11, WORD) == 500);
        assert!(rt; versions.at(5, WORD) == 104);
    }
    Ok(())
}
