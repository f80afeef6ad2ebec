ghost use Rattle.std.specs.Prelude.{◌≡◌, ◌∷◌, [], true, IfOk, length};
ghost use Rattle.pg_event.specs.Spelling.{IsHead};

use pg_entry::{AccessKind, Cfg, CfgFlags, Level, Op, Rights, Rules};
use pg_event::{Event, Header, Moments, Version};
use pg_shadow::{Found, KeptLeaf, KeptTable, Shadow};
use pg_timeline::Probes;
use std::alloc::{AllocError, AllocGlobal, Global};
use std::process::Abort;
use std::test::Fail;

/// An address in the page of 2 MB from 0x400000 on.
const LA: u64 = 0x40_0123;

const READ: AccessKind = AccessKind {
    op: Op::Read,
    user: true,
    ac: false,
};

const WRITE: AccessKind = AccessKind {
    op: Op::Write,
    user: true,
    ac: false,
};

/// One processor with PCID 1 and global pages.
fn header(alloc: Global, version: Version) -> Result<Header, AllocError>
    ensures head { IfOk result IsHead }
    ensures one { IfOk result (λ header. header.processors ≡ (0x1001, true) ∷ []) }
{
    let mut processors = Vec::new(alloc);
    processors.push((0x1001, true))?;
    Ok(Header {
        version,
        cfg: Cfg {
            flags: CfgFlags(3),
            m: 40,
            rules: Rules::ALL,
        },
        segment: 16,
        processors,
    })
}

fn three(moment: u32) -> Moments
    ensures { length result ≡ 3 }
{
    let first = Moments::first(moment);
    match first.with(moment) {
        Some(two) => match two.with(moment) {
            Some(three) => three,
            None => unreachable!(),
        },
        None => unreachable!(),
    }
}

fn rights(write: bool) -> Rights {
    Rights {
        write,
        user: true,
        xd: false,
    }
}

/// Keeps a table of level 2.
fn keep_table(shadow: &mut Shadow, moment: u32) -> Result<(), AllocError> {
    let _control = shadow.control();
    let moments = three(moment);
    shadow.keep_table(
        LA,
        Level::Two,
        KeptTable {
            table: 0x4000,
            rights: rights(true),
            moments,
        },
    )
}

/// Keeps a page of 2 MB with D = 0.
fn keep_page(
    shadow: &mut Shadow,
    global_bit: bool,
    write: bool,
    moment: u32,
) -> Result<(), AllocError> {
    let _control = shadow.control();
    let moments = three(moment);
    shadow.keep_leaf(
        LA,
        21,
        global_bit,
        KeptLeaf {
            frame: 0x60_0000,
            rights: rights(write),
            dirty: false,
            moments,
        },
    )
}

fn hit(global: bool, write: bool, moment: u32) -> Found {
    Found::Hit {
        frame: 0x60_0000,
        shift: 21,
        rights: rights(write),
        global,
        moments: three(moment),
    }
}

fn partial(moment: u32) -> Found {
    Found::Partial {
        level: Level::Two,
        table: 0x4000,
        rights: rights(true),
        moments: three(moment),
    }
}

/// What a look-up is to find.
enum Wanted {
    Miss,
    /// The table, kept at this moment.
    Partial(u32),
    /// The page: whether it is global, and may be written, and when it was kept.
    Hit(bool, bool, u32),
}

/// A call, and what it gives where it gives something.
enum Step {
    Table {
        moment: u32,
    },
    Page {
        global: bool,
        write: bool,
        moment: u32,
    },
    Happens(Event),
    Fault,
    Cr3(u64),
    Invlpg(u64),
    /// INVPCID of this type.
    Invpcid(u8),
    Pge(bool),
    Read(Wanted),
    Write(Wanted),
    /// A read's look-up, and how much of the page it looks at.
    Counted(Wanted, u64),
    Pcid(u16),
    Width(u8),
}

fn is_wanted(found: Found, wanted: &Wanted) -> bool {
    let expected = match *wanted {
        Wanted::Miss => Found::Miss,
        Wanted::Partial(moment) => partial(moment),
        Wanted::Hit(global, write, moment) => hit(global, write, moment),
    };
    found == expected
}

/// Whether a counted look-up of a read finds this.
fn is_counted(shadow: &Shadow, header: &Header, wanted: &Wanted, count: u64) -> bool {
    let mut probes = Probes::new();
    let found = shadow.find_counted(LA, READ, header, &mut probes);
    is_wanted(found, wanted) && probes.count() == count
}

/// Makes a call that gives nothing.
fn happen(shadow: &mut Shadow, step: &Step) {
    match *step {
        Step::Happens(event) => shadow.happened(&event),
        Step::Fault => shadow.on_fault(LA),
        Step::Cr3(operand) => shadow.on_cr3(operand),
        Step::Invlpg(la) => shadow.on_invlpg(la),
        Step::Invpcid(kind) => shadow.on_invpcid(kind, 0, 0),
        Step::Pge(on) => shadow.on_pge(on),
        Step::Table { .. }
        | Step::Page { .. }
        | Step::Read(_)
        | Step::Write(_)
        | Step::Counted(..)
        | Step::Pcid(_)
        | Step::Width(_) => {}
    }
}

/// Whether the shadow shows what the step says, if it is one that looks.
fn shows(shadow: &Shadow, header: &Header, step: &Step) -> bool {
    match step {
        Step::Read(wanted) => is_wanted(shadow.find(LA, READ, header), wanted),
        Step::Write(wanted) => is_wanted(shadow.find(LA, WRITE, header), wanted),
        Step::Counted(wanted, count) => is_counted(shadow, header, wanted, *count),
        Step::Pcid(pcid) => shadow.control().pcid == *pcid,
        Step::Width(width) => shadow.width() == *width,
        Step::Table { .. }
        | Step::Page { .. }
        | Step::Happens(_)
        | Step::Fault
        | Step::Cr3(_)
        | Step::Invlpg(_)
        | Step::Invpcid(_)
        | Step::Pge(_) => true,
    }
}

/// Takes a step; says whether it gave what it says.
fn take(shadow: &mut Shadow, header: &Header, step: &Step) -> Result<bool, AllocError> {
    match *step {
        Step::Table { moment } => keep_table(shadow, moment)?,
        Step::Page {
            global,
            write,
            moment,
        } => keep_page(shadow, global, write, moment)?,
        _ => happen(shadow, step),
    }
    Ok(shows(shadow, header, step))
}

/// Takes all these steps.
fn take_steps(
    rt: &(impl AllocGlobal + Abort),
    shadow: &mut Shadow,
    header: &Header,
    steps: &[Step],
) -> Result<(), Fail> {
    for (place, step) in steps.iter().enumerate() {
        assert!(rt; take(shadow, header, step)?, "step {place}");
    }
    Ok(())
}

/// Takes them with a new shadow.
fn take_all(rt: &(impl AllocGlobal + Abort), version: Version, steps: &[Step]) -> Result<(), Fail> {
    let header = header(rt.alloc(), version)?;
    let mut shadow = Shadow::new(rt.alloc(), &header, 0);
    take_steps(rt, &mut shadow, &header, steps)
}

/// A translation is found before a table with its prefix.
const TRANSLATION_FIRST: [Step; 8] = [
    Step::Read(Wanted::Miss),
    Step::Table { moment: 4 },
    Step::Read(Wanted::Partial(4)),
    Step::Page {
        global: false,
        write: true,
        moment: 5,
    },
    Step::Read(Wanted::Hit(false, true, 5)),
    Step::Counted(Wanted::Hit(false, true, 5), 3),
    Step::Fault,
    Step::Read(Wanted::Miss),
];

/// An allowed write passes over a page without D.
const WRITES_WITHOUT_D: [Step; 6] = [
    Step::Table { moment: 4 },
    Step::Page {
        global: false,
        write: true,
        moment: 5,
    },
    Step::Write(Wanted::Partial(4)),
    Step::Read(Wanted::Hit(false, true, 5)),
    Step::Page {
        global: false,
        write: false,
        moment: 6,
    },
    Step::Write(Wanted::Hit(false, false, 6)),
];

/// Instructions take out what they must.
const INSTRUCTIONS: [Step; 19] = [
    Step::Width(40),
    Step::Page {
        global: true,
        write: true,
        moment: 4,
    },
    Step::Happens(Event::Write {
        p: 0,
        addr: 0x1000,
        value: 0,
    }),
    Step::Invpcid(3),
    Step::Read(Wanted::Hit(true, true, 4)),
    Step::Invpcid(2),
    Step::Table { moment: 5 },
    Step::Cr3(0x8000_0000_0000_1002),
    Step::Pcid(2),
    Step::Read(Wanted::Miss),
    Step::Cr3(0x8000_0000_0000_1001),
    Step::Read(Wanted::Partial(5)),
    Step::Invlpg(0x8000_0000),
    Step::Read(Wanted::Miss),
    Step::Page {
        global: true,
        write: true,
        moment: 6,
    },
    Step::Pge(true),
    Step::Read(Wanted::Hit(true, true, 6)),
    Step::Pge(false),
    Step::Read(Wanted::Miss),
];

#[test]
fn what_is_kept_and_found(rt: HostRuntime) -> Result<(), Fail> {
    take_all(&rt, Version::One, &TRANSLATION_FIRST)?;
    take_all(&rt, Version::Two, &WRITES_WITHOUT_D)?;
    take_all(&rt, Version::One, &INSTRUCTIONS)
}
