ghost use Rattle.std.specs.Prelude.{◌≡◌, ◌∷◌, [], true, IfOk};
ghost use Rattle.pg_event.specs.Spelling.{IsHead};

use pg_entry::{Cfg, CfgFlags, Rules};
use pg_event::{Event, Header, Version};
use pg_state::Controls;
use std::alloc::{AllocError, Global};
use std::test::Fail;

fn one_processor(alloc: Global) -> Result<Header, AllocError>
    ensures head { IfOk result IsHead }
    ensures one { IfOk result (λ header. header.processors ≡ (0x1001, true) ∷ []) }
{
    let mut processors = Vec::new(alloc);
    processors.push((0x1001, true))?;
    Ok(Header {
        version: Version::One,
        cfg: Cfg {
            flags: CfgFlags(3),
            m: 40,
            rules: Rules::ALL,
        },
        segment: 16,
        processors,
    })
}

/// A MOV to CR3 and one to CR4, and what stood before the one and after it.
fn seen(alloc: Global) -> Result<([u64; 2], [u16; 2], [bool; 2], u64), AllocError> {
    let header = one_processor(alloc)?;
    let mut controls = Controls::new(alloc, &header)?;
    controls.note(
        4,
        &Event::MovCr3 {
            p: 0,
            operand: 0x8000_0000_0000_7002,
        },
    )?;
    controls.note(5, &Event::MovCr4Pge { p: 0, on: false })?;
    let roots = [controls.root_at(0, 4), controls.root_at(0, 5)];
    let pcids = [controls.pcid_at(0, 4), controls.pcid_at(0, 5)];
    let pges = [controls.pge_at(0, 5), controls.pge_at(0, 6)];
    Ok((roots, pcids, pges, controls.next()))
}

#[test]
fn a_change_is_seen_after_its_event(rt: HostRuntime) -> Result<(), Fail> {
    let wanted = ([0x1000, 0x7000], [1, 2], [true, false], 6);
    assert!(rt; seen(rt.alloc())? == wanted);
    Ok(())
}
