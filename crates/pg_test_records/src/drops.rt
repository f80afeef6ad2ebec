use crate::written::{Written, event_of};
use pg_entry::{Level, Rules};
use pg_event::{Control, Event, Outcome, Window, translation_key};
use pg_inval::Drops;
use pg_timeline::Probes;
use std::alloc::{AllocError, Global};
use std::test::Fail;

const LA: u64 = 0x40_5123;

const NEXT_PAGE: u64 = 0x40_6000;

const NEXT_2MB: u64 = 0x60_5123;

const WRITE: Written = Written::Write(0, 0x1000, 7);

const ANSWER: Written = Written::Access {
    p: 0,
    flags: 4,
    la: LA,
    outcome: Outcome::Page(0x9123),
    at: &[5],
};

const FAULT: Written = Written::Access {
    p: 0,
    flags: 4,
    la: LA,
    outcome: Outcome::Fault(4),
    at: &[5],
};

const ASSIST: Written = Written::Assist {
    p: 0,
    flags: 0x15,
    la: LA,
    word: 0x1000,
    at: &[5],
};

const INVLPG: Written = Written::Invlpg(0, LA);

const INVLPG_NEXT: Written = Written::Invlpg(0, NEXT_PAGE);

const MOV_CR3: Written = Written::Cr3(0, 0x7002);

/// With bit 63, by which it drops nothing.
const MOV_CR3_KEEPS: Written = Written::Cr3(0, 0x8000_0000_0000_7002);

/// INVPCID of each type, of PCID 2 and `LA` where it names them.
const INVPCID_0: Written = Written::Invpcid(0, 0, 2, LA);

const INVPCID_1: Written = Written::Invpcid(0, 1, 2, 0);

const INVPCID_2: Written = Written::Invpcid(0, 2, 0, 0);

const INVPCID_3: Written = Written::Invpcid(0, 3, 0, 0);

const PGE_OFF: Written = Written::Pge(0, false);

const PGE_ON: Written = Written::Pge(0, true);

/// What is cached, for a linear address.
enum Key {
    /// A structure entry of a PCID and a level; level 1 gives none.
    Table(u16, Level, u64),
    /// A translation of a PCID by a page of so many bits, global or not.
    Page(u16, u8, u64, bool),
}

/// An event, and whether its processor has to drop what a key says.
type Row = (Written, Key, bool);

const STRUCTURES: [Row; 21] = [
    (WRITE, Key::Table(1, Level::Two, LA), false),
    (ASSIST, Key::Table(1, Level::Two, LA), false),
    (ANSWER, Key::Table(1, Level::Two, LA), false),
    (MOV_CR3, Key::Table(2, Level::Four, LA), true),
    (MOV_CR3, Key::Table(1, Level::Four, LA), false),
    (MOV_CR3_KEEPS, Key::Table(2, Level::Four, LA), false),
    (INVLPG, Key::Table(1, Level::Two, NEXT_2MB), true),
    (INVLPG, Key::Table(2, Level::Two, LA), false),
    (INVPCID_0, Key::Table(2, Level::Two, NEXT_PAGE), true),
    (INVPCID_0, Key::Table(2, Level::Two, NEXT_2MB), false),
    (INVPCID_0, Key::Table(2, Level::Three, NEXT_2MB), true),
    (INVPCID_0, Key::Table(1, Level::Two, LA), false),
    (INVPCID_1, Key::Table(2, Level::Two, LA), true),
    (INVPCID_1, Key::Table(1, Level::Two, LA), false),
    (INVPCID_2, Key::Table(1, Level::Three, LA), true),
    (INVPCID_3, Key::Table(2, Level::Three, LA), true),
    (PGE_OFF, Key::Table(2, Level::Two, LA), true),
    (PGE_ON, Key::Table(1, Level::Two, LA), false),
    (FAULT, Key::Table(1, Level::Two, NEXT_PAGE), true),
    (FAULT, Key::Table(1, Level::Two, NEXT_2MB), false),
    (FAULT, Key::Table(2, Level::Two, LA), false),
];

const TRANSLATIONS: [Row; 28] = [
    (WRITE, Key::Page(1, 12, LA, false), false),
    (ASSIST, Key::Page(1, 12, LA, false), false),
    (ANSWER, Key::Page(1, 12, LA, false), false),
    (MOV_CR3, Key::Page(2, 12, LA, false), true),
    (MOV_CR3, Key::Page(2, 12, LA, true), false),
    (MOV_CR3, Key::Page(1, 12, LA, false), false),
    (MOV_CR3_KEEPS, Key::Page(2, 12, LA, false), false),
    (INVLPG, Key::Page(1, 12, LA, false), true),
    (INVLPG, Key::Page(2, 12, LA, true), true),
    (INVLPG, Key::Page(2, 12, LA, false), false),
    (INVLPG, Key::Page(1, 12, NEXT_PAGE, false), false),
    (INVLPG, Key::Page(1, 21, NEXT_PAGE, false), true),
    (INVPCID_0, Key::Page(2, 12, LA, false), true),
    (INVPCID_0, Key::Page(2, 12, LA, true), false),
    (INVPCID_0, Key::Page(2, 12, NEXT_PAGE, false), false),
    (INVPCID_0, Key::Page(1, 12, LA, false), false),
    (INVPCID_1, Key::Page(2, 30, LA, false), true),
    (INVPCID_1, Key::Page(2, 30, LA, true), false),
    (INVPCID_1, Key::Page(1, 30, LA, false), false),
    (INVPCID_2, Key::Page(2, 12, LA, true), true),
    (INVPCID_3, Key::Page(2, 12, LA, true), false),
    (INVPCID_3, Key::Page(2, 12, LA, false), true),
    (PGE_OFF, Key::Page(2, 12, LA, true), true),
    (PGE_ON, Key::Page(1, 12, LA, false), false),
    (FAULT, Key::Page(1, 12, LA, false), true),
    (FAULT, Key::Page(2, 12, LA, true), true),
    (FAULT, Key::Page(2, 12, LA, false), false),
    (FAULT, Key::Page(1, 12, NEXT_PAGE, false), false),
];

/// Of a processor whose PCID is 1, with global pages on.
const BEFORE: Control = Control {
    root: 0x1000,
    pcid: 1,
    pge: true,
};

/// One event noted as number 5.
fn noted(alloc: Global, event: &Event) -> Result<Drops, AllocError> {
    let mut drops = Drops::new(alloc);
    drops.note(Rules::ALL, 5, event, BEFORE)?;
    Ok(drops)
}

/// Whether processor p had to drop it between two moments.
fn is_dropped(drops: &Drops, p: u16, key: &Key, from: u32, to: u32) -> bool {
    match *key {
        Key::Table(pcid, level, la) => is_table_dropped(drops, p, (pcid, level, la), from, to),
        Key::Page(pcid, shift, la, global) => {
            is_page_dropped(drops, p, (pcid, shift, la, global), from, to)
        }
    }
}

/// Whether processor p had to drop a structure entry; level 1 gives none.
fn is_table_dropped(drops: &Drops, p: u16, key: (u16, Level, u64), from: u32, to: u32) -> bool {
    let (pcid, level, la) = key;
    match level {
        Level::Four => drops.structure_dropped(p, pcid, Level::Four, la, from, to),
        Level::Three => drops.structure_dropped(p, pcid, Level::Three, la, from, to),
        Level::Two => drops.structure_dropped(p, pcid, Level::Two, la, from, to),
        Level::One => false,
    }
}

/// Whether processor p had to drop a translation; there are three sizes of pages.
fn is_page_dropped(drops: &Drops, p: u16, key: (u16, u8, u64, bool), from: u32, to: u32) -> bool {
    let (pcid, shift, la, global) = key;
    match shift {
        12 => drops.translation_dropped(p, pcid, 12, la, global, from, to),
        21 => drops.translation_dropped(p, pcid, 21, la, global, from, to),
        30 => drops.translation_dropped(p, pcid, 30, la, global, from, to),
        _ => false,
    }
}

/// Whether the event drops it or not as the row says: processor 0 at the event's number alone, and
/// processor 1 never.
fn is_right(alloc: Global, row: &Row) -> Result<bool, Fail> {
    let (written, key, wanted) = row;
    let drops = noted(alloc, &event_of(written).ok_or("moments")?)?;
    let at_event = is_dropped(&drops, 0, key, 5, 6);
    let before = is_dropped(&drops, 0, key, 0, 5);
    let after = is_dropped(&drops, 0, key, 6, 9);
    let by_other = is_dropped(&drops, 1, key, 5, 6);
    Ok([at_event, before, after, by_other] == [*wanted, false, false, false])
}

#[test]
fn structures(rt: HostRuntime) -> Result<(), Fail> {
    for (place, row) in STRUCTURES.iter().enumerate() {
        assert!(rt; is_right(rt.alloc(), row)?, "row {place}");
    }
    Ok(())
}

/// A drop that was noted is found in a list, and no entry of the log is passed over.
#[test]
fn drops_are_listed(rt: HostRuntime) -> Result<(), Fail> {
    let drops = noted(rt.alloc(), &event_of(&INVLPG).ok_or("moments")?)?;
    let mut probes = Probes::new();
    let key = translation_key(1, 12, false, LA);
    let window = Window { from: 5, to: 6 };
    let dropped = drops.translation_dropped_counted(0, key, window, &mut probes);
    let count = probes.count();
    assert!(rt; dropped && count >= 1 && probes.entries() == 0, "{count}");
    Ok(())
}

/// Notes an event, and makes no list.
fn note_later(drops: &mut Drops, moment: u32, written: &Written) -> Result<(), Fail> {
    let event = event_of(written).ok_or("moments")?;
    if drops.next() <= moment as u64 {
        drops.note_later(Rules::ALL, moment, &event, BEFORE)?;
    }
    Ok(())
}

/// The first drop of the page of `LA`, how many moments were read in lists, and how many entries of
/// the log were passed over.
fn first_drop(drops: &Drops) -> (Option<u32>, u64, u64) {
    let mut probes = Probes::new();
    let key = translation_key(1, 12, false, LA);
    let window = Window { from: 5, to: 9 };
    let first = drops.first_drop_of_translation(0, key, window, &mut probes);
    (first, probes.count(), probes.entries())
}

/// The same, where two events were noted, of which the second drops that page.
fn drop_after_another(drops: &mut Drops) -> Result<(Option<u32>, u64, u64), Fail> {
    note_later(drops, 5, &INVLPG_NEXT)?;
    note_later(drops, 6, &INVLPG)?;
    Ok(first_drop(drops))
}

fn drop_in_the_log(alloc: Global) -> Result<(Option<u32>, u64, u64), Fail> {
    let mut drops = Drops::new(alloc);
    drop_after_another(&mut drops)
}

/// Where no list was made, a drop is found in the log. The entry before it, which is of another
/// page, is passed over, and is no probe.
#[test]
fn drops_are_found_in_the_log(rt: HostRuntime) -> Result<(), Fail> {
    let found = drop_in_the_log(rt.alloc())?;
    assert!(rt; found == (Some(6), 0, 1), "{found:?}");
    Ok(())
}

#[test]
fn translations(rt: HostRuntime) -> Result<(), Fail> {
    for (place, row) in TRANSLATIONS.iter().enumerate() {
        assert!(rt; is_right(rt.alloc(), row)?, "row {place}");
    }
    Ok(())
}
