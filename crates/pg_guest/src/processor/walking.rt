//! A level of a walk is read, and what it refers to is kept.

ghost use Rattle.std.specs.Prelude.{◌≡◌, ◌<◌, ◌≤◌, ◌++◌, ◌∷◌, [], true, false, length};
ghost use Rattle.pg_entry.specs.Kinds.{kind_of};
ghost use Rattle.pg_event.specs.Wants.{is_wanted};
ghost use Rattle.pg_event.specs.declared.event.Want.TheVariants as wants;
ghost use Rattle.pg_shadow.specs.Held.{seen as cached};
ghost use Rattle.pg_shadow.specs.Caches.{IsTableAt, IsPageAt};
ghost use Rattle.pg_shadow.specs.Find.{IsInRange};
ghost use Rattle.pg_world.specs.Recording.{Recording};
ghost use Rattle.pg_world.specs.Walks.{is_walk, moments_of, levels_above};
ghost use Rattle.pg_guest.specs.Turn.{reads, keeps, has_table, has_page, ComesTo};
ghost use Rattle.pg_guest.specs.Held.{seen};

use super::{Processor, note};
use crate::advance::{Advance, Stop};
use crate::calls::{cfg_of, read_level};
use pg_entry::{Cfg, Entry, Kind, classify, combine, dirty};
use pg_shadow::{Found, KeptLeaf, KeptTable};
use pg_world::{LevelRead, Walk, World};

impl<'a> Processor<'a> {
    /// Keeps the table that an entry refers to: the walk has come to it.
    fn keep_table(&mut self, walk: &Walk, kept: KeptTable) -> Advance
        requires table { IsTableAt (cached self.old.shadow).width walk.now.level kept.table
            kept.moments }
        requires due { self.old.place < length self.old.instructions }
        ensures number { self.new.number ≡ self.old.number }
        ensures turn { (r : Recording) → r.finished ≡ false → let x = seen self.old in
            ComesTo r x (has_table r x walk.now kept)
            (record { answer = result; world = r; processor = seen self.new }) }
    {
        let level = walk.level;
        let KeptTable {
            table,
            rights,
            moments,
        } = kept;
        match self.shadow.keep_table(walk.la, level, kept) {
            Ok(()) => {
                self.way = Found::Partial {
                    level,
                    table,
                    rights,
                    moments,
                };
                Advance::Read(level)
            }
            Err(_) => self.stopped(Stop::Memory),
        }
    }

    /// Keeps the page that an entry maps: the walk has come to it.
    fn keep_leaf(&mut self, walk: &Walk, shift: u8, global_bit: bool, kept: KeptLeaf) -> Advance
        requires page { IsPageAt (cached self.old.shadow).width shift kept.frame kept.moments }
        requires due { self.old.place < length self.old.instructions }
        ensures number { self.new.number ≡ self.old.number }
        ensures turn { (r : Recording) → r.finished ≡ false → let x = seen self.old in
            ComesTo r x (has_page r x walk.now shift global_bit kept)
            (record { answer = result; world = r; processor = seen self.new }) }
    {
        let global = global_bit && self.shadow.control().pge;
        let KeptLeaf {
            frame,
            rights,
            moments,
            ..
        } = kept;
        match self.shadow.keep_leaf(walk.la, shift, global_bit, kept) {
            Ok(()) => {
                self.way = Found::Hit {
                    frame,
                    shift,
                    rights,
                    global,
                    moments,
                };
                Advance::Read(walk.level)
            }
            Err(_) => self.stopped(Stop::Memory),
        }
    }

    /// Keeps what an entry that was read refers to or maps.
    fn keep(&mut self, cfg: Cfg, walk: &Walk, value: u64, moment: u32) -> Advance
        requires width { (cached self.old.shadow).width ≡ cfg.m }
        requires range { (36 ≤ cfg.m) × (cfg.m ≤ 52) }
        requires due { self.old.place < length self.old.instructions }
        requires moments { length (moments_of walk.now.moments) ≡ levels_above walk.now.level }
        requires present { is_wanted wants.Present (kind_of cfg walk.now.level value) ≡ true }
        ensures number { self.new.number ≡ self.old.number }
        ensures turn { (r : Recording) → r.finished ≡ false → let x = seen self.old in
            let moments = moments_of walk.now.moments ++ moment ∷ [] in
            ComesTo r x (keeps r x walk.now value moments (kind_of cfg walk.now.level value))
            (record { answer = result; world = r; processor = seen self.new }) }
    {
        let rights = combine(walk.rights, Entry(value));
        let moments = walk.moments_with(moment);
        match classify(cfg, walk.level, Entry(value)) {
            Kind::Absent | Kind::Reserved => unreachable!(),
            Kind::Table { addr } => {
                let kept = KeptTable {
                    table: addr,
                    rights,
                    moments,
                };
                self.keep_table(walk, kept)
            }
            Kind::Leaf {
                frame,
                shift,
                global_bit,
            } => {
                let kept = KeptLeaf {
                    frame,
                    rights,
                    dirty: dirty(Entry(value)),
                    moments,
                };
                self.keep_leaf(walk, shift, global_bit, kept)
            }
        }
    }

    /// Reads a level for a walk that stands so far.
    pub(super) fn read(&mut self, world: &mut World, way: Found, walk: &Walk) -> Advance
        requires walk { is_walk world.old.head self.old.number walk.now ≡ true }
        requires way { IsInRange (cached self.old.shadow).width way }
        requires width { (cached self.old.shadow).width ≡ world.old.head.cfg.m }
        requires due { self.old.place < length self.old.instructions }
        ensures number { self.new.number ≡ self.old.number }
        ensures turn { let x = seen self.old in
            ComesTo world.old x (reads self.old.number world.old x way walk.now)
            (record { answer = result; world = world.new; processor = seen self.new }) }
    {
        if self.transcript.reserve(1).is_err() {
            return self.stopped(Stop::Memory);
        }
        let cfg = cfg_of(world);
        match read_level(world, self.number, walk) {
            Ok(LevelRead::Entry { value, moment }) => self.keep(cfg, walk, value, moment),
            Ok(LevelRead::Fault(receipt)) => {
                note(&mut self.transcript, &mut self.shadow, &receipt);
                self.done(receipt)
            }
            Ok(LevelRead::Assisted(receipt)) => {
                note(&mut self.transcript, &mut self.shadow, &receipt);
                self.way = way;
                Advance::Assisted(receipt)
            }
            Err(why) => self.stopped(why),
        }
    }
}
