use crate::receipts::script_of;
use pg_entry::{Cfg, CfgFlags, Rules};
use pg_event::{Header, Version};
use pg_guest::{Instruction, Script, ScriptRefusal};
use std::alloc::{AllocError, AllocGlobal, Global};
use std::process::Abort;
use std::test::Fail;

const LINE_1: &str = "pcid-guest 1\n";

const MACHINE: &str = "pcid-guest 1\nmachine 40 wp nxe\n";

const SEGMENT: &str = "pcid-guest 1\nmachine 40 wp nxe\nsegment 16\n";

/// One processor, and no instruction yet.
const HEAD: &str = "pcid-guest 1\nmachine 40 wp nxe\nsegment 16\ncpu 0x1001 1\n";

const HEAD_OF_VERSION_2: &str = "pcid-guest 2\nmachine 40 wp nxe\nsegment 16\ncpu 0x1001 1\n";

const STALE_LEAF: &[u8] = b"0 write 0x1000 0x2007\n0 write 0x2000 0x3007\n\
    0 write 0x3000 0x4007\n0 write 0x4028 0x9007\n0 read 0x5123 user\n0 write 0x4028 0x0\n\
    0 read 0x5123 user\n0 invlpg 0x5000\n0 read 0x5123 user\n";

fn joined(alloc: Global, head: &str, more: &[u8]) -> Result<Vec<u8>, AllocError> {
    let mut text = Vec::from_slice(alloc, head.as_bytes())?;
    text.extend_from_slice(more)?;
    Ok(text)
}

/// What a text spells.
struct Spelled {
    name: &'static str,
    head: &'static str,
    text: &'static [u8],
    version: Version,
    processors: &'static [(u64, bool)],
    order: &'static [u16],
    /// By processor; one that is not there has none.
    instructions: &'static [(u16, &'static [Instruction])],
}

const READ: Instruction = Instruction::Access {
    flags: 4,
    la: 0x5123,
};

/// The instructions of `STALE_LEAF`.
const OF_STALE_LEAF: [Instruction; 9] = [
    Instruction::Write {
        addr: 0x1000,
        value: 0x2007,
    },
    Instruction::Write {
        addr: 0x2000,
        value: 0x3007,
    },
    Instruction::Write {
        addr: 0x3000,
        value: 0x4007,
    },
    Instruction::Write {
        addr: 0x4028,
        value: 0x9007,
    },
    READ,
    Instruction::Write {
        addr: 0x4028,
        value: 0,
    },
    READ,
    Instruction::Invlpg { la: 0x5000 },
    READ,
];

const SPELLED: [Spelled; 4] = [
    Spelled {
        name: "version 1",
        head: HEAD,
        text: STALE_LEAF,
        version: Version::One,
        processors: &[(0x1001, true)],
        order: &[0; 9],
        instructions: &[(0, &OF_STALE_LEAF), (1, &[])],
    },
    Spelled {
        name: "version 2",
        head: HEAD_OF_VERSION_2,
        text: STALE_LEAF,
        version: Version::Two,
        processors: &[(0x1001, true)],
        order: &[0; 9],
        instructions: &[(0, &OF_STALE_LEAF), (1, &[])],
    },
    Spelled {
        name: "each instruction",
        head: HEAD,
        text: b"# two more\n\ncpu 0x0 0\ncpu 0xABCdef0 1\n2 store 0xFFFFFFFFFFFFFFFF super\n\
            0 fetch 0x5123 super-ac\n2 cr3 0x8000000000001002\n#\n1 invpcid 00 0xfff 0x5000\n\
            0000000001 invpcid 2 0x0 0x0\n0 pge 0\n2 pge 1\n",
        version: Version::One,
        processors: &[(0x1001, true), (0, false), (0xabc_def0, true)],
        order: &[2, 0, 2, 1, 1, 0, 2],
        instructions: &[
            (
                0,
                &[
                    Instruction::Access {
                        flags: 0x0a,
                        la: 0x5123,
                    },
                    Instruction::MovCr4Pge { on: false },
                ],
            ),
            (
                1,
                &[
                    Instruction::Invpcid {
                        kind: 0,
                        pcid: 0xfff,
                        la: 0x5000,
                    },
                    Instruction::Invpcid {
                        kind: 2,
                        pcid: 0,
                        la: 0,
                    },
                ],
            ),
            (
                2,
                &[
                    Instruction::Access {
                        flags: 1,
                        la: 0xffff_ffff_ffff_ffff,
                    },
                    Instruction::MovCr3 {
                        operand: 0x8000_0000_0000_1002,
                    },
                    Instruction::MovCr4Pge { on: true },
                ],
            ),
        ],
    },
    Spelled {
        name: "no instruction",
        head: HEAD,
        text: b"",
        version: Version::One,
        processors: &[(0x1001, true)],
        order: &[],
        instructions: &[(0, &[])],
    },
];

/// MAXPHYADDR 40, WP and NXE.
const CFG: Cfg = Cfg {
    flags: CfgFlags(3),
    m: 40,
    rules: Rules::ALL,
};

fn is_headed(header: &Header, spelled: &Spelled) -> bool {
    (header.version, header.cfg, header.segment) == (spelled.version, CFG, 16)
        && header.processors.as_slice() == spelled.processors
}

/// Whether a processor has these instructions.
fn has_instructions(script: &Script, p: u16, instructions: &[Instruction]) -> bool {
    script.instructions(p) == instructions
}

fn is_script(script: &Script, spelled: &Spelled) -> bool {
    is_headed(script.header(), spelled)
        && script.order() == spelled.order
        && spelled.instructions.iter().all(|(p, instructions)| has_instructions(
            script,
            *p,
            instructions,
        ))
}

fn is_spelled(alloc: Global, spelled: &Spelled) -> Result<bool, Fail> {
    let text = joined(alloc, spelled.head, spelled.text)?;
    let script = script_of(alloc, &text)?;
    Ok(is_script(&script, spelled))
}

fn spell_all(rt: &(impl AllocGlobal + Abort), cases: &[Spelled]) -> Result<(), Fail> {
    for spelled in cases {
        assert!(rt; is_spelled(rt.alloc(), spelled)?, "{}", spelled.name);
    }
    Ok(())
}

#[test]
fn reads_scripts(rt: HostRuntime) -> Result<(), Fail> {
    spell_all(&rt, &SPELLED)
}

/// Each of these lines, between semicolons, is refused so after what stands before it.
struct Refused {
    head: &'static str,
    lines: &'static str,
    /// What ends each of them.
    end: &'static [u8],
    line: u32,
    refusal: ScriptRefusal,
}

const LF: &[u8] = b"\n";

const REFUSED: [Refused; 14] = [
    Refused {
        head: "",
        lines: "",
        end: &[],
        line: 1,
        refusal: ScriptRefusal::FirstLine,
    },
    Refused {
        head: "",
        lines: ";#;# pcid-guest 1;pcid-guest 3;pcid-guest 01;pcid-guest  1;pcid-guest 1 ;\
            pcid-guest;pcid-guest 1 1",
        end: LF,
        line: 1,
        refusal: ScriptRefusal::FirstLine,
    },
    Refused {
        head: LINE_1,
        lines: "",
        end: &[],
        line: 2,
        refusal: ScriptRefusal::Machine,
    },
    Refused {
        head: LINE_1,
        lines: "\n# no\n",
        end: &[],
        line: 4,
        refusal: ScriptRefusal::Machine,
    },
    Refused {
        head: LINE_1,
        lines: "machine;machine 35;machine 53;machine 0x28;machine x;machine 40 nxe wp;\
            machine 40 wp wp;machine 40 ac;machine 40 ;machine  40;segment 16",
        end: LF,
        line: 2,
        refusal: ScriptRefusal::Machine,
    },
    Refused {
        head: MACHINE,
        lines: "",
        end: &[],
        line: 3,
        refusal: ScriptRefusal::Segment,
    },
    Refused {
        head: MACHINE,
        lines: "segment;segment 0;segment 65537;segment 00000000001;segment 0x10;\
            segment 16 1;cpu 0x1001 1",
        end: LF,
        line: 3,
        refusal: ScriptRefusal::Segment,
    },
    Refused {
        head: SEGMENT,
        lines: "",
        end: &[],
        line: 4,
        refusal: ScriptRefusal::Cpu,
    },
    Refused {
        head: SEGMENT,
        lines: "0 pge 1;cpu;cpu 0x10000000000 1;cpu 0x1001 2;cpu 0x1001 00;cpu 0x1001;\
            cpu 1001 1;cpu 0X1001 1;cpu 0x1001 1 1; cpu 0x1001 1",
        end: LF,
        line: 4,
        refusal: ScriptRefusal::Cpu,
    },
    Refused {
        head: HEAD,
        lines: "cpu 0x1001 2;cpu;cpu 0x10000000000 1",
        end: LF,
        line: 5,
        refusal: ScriptRefusal::Cpu,
    },
    Refused {
        head: HEAD,
        lines: "x pge 1;0x0 pge 1;00000000000 pge 1;0;0 writes 0x0 0x0;0 write 0x0;\
            0 write 0x0 0x0 0x0;0 write 0x0 0x0 ;0 read 0x0 usr;0 read 0x0;0 fetch 0x0 user 1;\
            0 pge 2;0 pge 00;0 pge;0 pge 1 ; 0 pge 1;0  pge 1;9999999999 bogus;\
            0 invpcid 300 0x0;0 cr3;0 invlpg 0x0 0x0;0 Write 0x0 0x0; ; cpu 0x1001 1",
        end: LF,
        line: 5,
        refusal: ScriptRefusal::Instruction,
    },
    Refused {
        head: HEAD,
        lines: "0 write zz;0 write 0x 0x0;0 write 0x12345678901234567 0x0;0 write 10 0x0;\
            0 invpcid 300 zz 0x0;0 invpcid 0x1 0x0 0x0;0 invpcid 0 0x0 0X0;0 read user user;\
            0 invlpg ;0 cr3 +1;0 write 0x0 0xg;0 write 0x0  0x0;0 invpcid 00000000000 0x0 0x0",
        end: LF,
        line: 5,
        refusal: ScriptRefusal::Number,
    },
    Refused {
        head: HEAD,
        lines: "1 pge 1;65536 pge 1;9999999999 pge 1;0 write 0x1004 0x0;\
            0 write 0x10000000000 0x0;0 read 0x800000000000 user;0 invlpg 0x800000000000;\
            0 cr3 0x10000000000;0 invpcid 4 0x0 0x0;0 invpcid 300 0x0 0x0;\
            0 invpcid 0 0x10000 0x0;0 invpcid 1 0x1 0x1;0 invpcid 2 0x1 0x0;\
            0 invpcid 0 0x0 0x800000000000",
        end: LF,
        line: 5,
        refusal: ScriptRefusal::Malformed,
    },
    Refused {
        head: HEAD,
        lines: "0 pge 1\ncpu 0x1001 1;# no\n0 bogus;\n0 bogus",
        end: LF,
        line: 6,
        refusal: ScriptRefusal::Instruction,
    },
];

/// Bytes that no line may have, and lines with no end, refused in whatever line.
const BYTES: [(&str, &[u8]); 3] = [
    ("\t;x\r;\x7f;#\t;0 bogus\x1f", LF),
    ("0 pge 1;#;machine 40", b""),
    ("# ", b"\xff\n"),
];

const HEADS: [(&str, u32); 5] = [("", 1), (LINE_1, 2), (MACHINE, 3), (SEGMENT, 4), (HEAD, 5)];

/// The line of a text that is refused, and why.
fn refusal_of(alloc: Global, text: &[u8]) -> Option<(u32, ScriptRefusal)> {
    match script_of(alloc, text) {
        Ok(_) => None,
        Err(error) => Some((error.line, error.refusal)),
    }
}

/// The refusal of one line with this end.
fn refusal_behind(
    alloc: Global,
    head: &str,
    line: &str,
    end: &[u8],
) -> Result<Option<(u32, ScriptRefusal)>, AllocError> {
    let mut text = joined(alloc, head, line.as_bytes())?;
    text.extend_from_slice(end)?;
    Ok(refusal_of(alloc, &text))
}

/// Wants each of these lines to be refused so.
fn refuses(
    rt: &(impl AllocGlobal + Abort),
    head: &str,
    lines: &str,
    end: &[u8],
    wanted: (u32, ScriptRefusal),
) -> Result<(), Fail> {
    for line in lines.split(';') {
        let given = refusal_behind(rt.alloc(), head, line, end)?;
        assert!(rt; given == Some(wanted), "{head}{line}");
    }
    Ok(())
}

fn refuse_all(rt: &(impl AllocGlobal + Abort), cases: &[Refused]) -> Result<(), Fail> {
    for it in cases {
        refuses(rt, it.head, it.lines, it.end, (it.line, it.refusal))?;
    }
    Ok(())
}

#[test]
fn refuses_lines(rt: HostRuntime) -> Result<(), Fail> {
    refuse_all(&rt, &REFUSED)
}

#[test]
fn refuses_bytes_of_lines(rt: HostRuntime) -> Result<(), Fail> {
    for &(head, line) in &HEADS {
        for &(lines, end) in &BYTES {
            refuses(&rt, head, lines, end, (line, ScriptRefusal::LineEnd))?;
        }
    }
    Ok(())
}

/// A line so many times, and more after it.
struct Repeated {
    head: &'static str,
    line: &'static str,
    count: u32,
    more: &'static [u8],
    /// How many processors the script has, or the line that is refused, and why.
    outcome: Result<usize, (u32, ScriptRefusal)>,
}

const REPEATED: [Repeated; 5] = [
    Repeated {
        head: HEAD,
        line: "cpu 0x1001 1\n",
        count: 63,
        more: b"",
        outcome: Ok(64),
    },
    Repeated {
        head: HEAD,
        line: "cpu 0x1001 1\n",
        count: 64,
        more: b"",
        outcome: Err((68, ScriptRefusal::Instruction)),
    },
    Repeated {
        head: HEAD_OF_VERSION_2,
        line: "cpu 0x1001 1\n",
        count: 1023,
        more: b"",
        outcome: Ok(1024),
    },
    Repeated {
        head: HEAD_OF_VERSION_2,
        line: "cpu 0x1001 1\n",
        count: 1024,
        more: b"",
        outcome: Err((1028, ScriptRefusal::Instruction)),
    },
    Repeated {
        head: HEAD,
        line: "0 pge 1\n",
        count: 1_048_576,
        more: b"# \nbogus\n",
        outcome: Err((1_048_582, ScriptRefusal::TooMany)),
    },
];

fn text_of(alloc: Global, repeated: &Repeated) -> Result<Vec<u8>, AllocError> {
    let mut text = Vec::from_slice(alloc, repeated.head.as_bytes())?;
    for _ in 0..repeated.count {
        text.extend_from_slice(repeated.line.as_bytes())?;
    }
    text.extend_from_slice(repeated.more)?;
    Ok(text)
}

fn outcome_of(alloc: Global, text: &[u8]) -> Result<usize, (u32, ScriptRefusal)> {
    match script_of(alloc, text) {
        Ok(script) => Ok(script.header().processors.len()),
        Err(error) => Err((error.line, error.refusal)),
    }
}

fn is_outcome(alloc: Global, repeated: &Repeated) -> Result<bool, AllocError> {
    let text = text_of(alloc, repeated)?;
    Ok(outcome_of(alloc, &text) == repeated.outcome)
}

fn repeat_all(rt: &(impl AllocGlobal + Abort), cases: &[Repeated]) -> Result<(), Fail> {
    for repeated in cases {
        assert!(rt;
            is_outcome(rt.alloc(), repeated)?,
            "{} lines",
            repeated.count
        );
    }
    Ok(())
}

#[test]
fn refuses_too_many_lines(rt: HostRuntime) -> Result<(), Fail> {
    repeat_all(&rt, &REPEATED)
}

const NAMES: [(ScriptRefusal, u8, &str); 3] = [
    (ScriptRefusal::Number, 6, "number"),
    (ScriptRefusal::TooMany, 9, "too many instructions"),
    (ScriptRefusal::Memory, 10, "memory"),
];

#[test]
fn numbers_and_names_refusals(rt: HostRuntime) -> Result<(), Fail> {
    for &(refusal, number, name) in &NAMES {
        assert!(rt;
            refusal.number() == number && refusal.name() == name,
            "{name}"
        );
    }
    Ok(())
}
