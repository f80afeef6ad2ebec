ghost use Rattle.std.specs.Prelude.{◌≡◌, ◌≢◌, ◌<◌, ◌≤◌, length, IfOk, IfErr, OnOk, OnErr};
ghost use Rattle.std.specs.Prelude.{map, None, Some, true, false};
ghost use Rattle.pg_event.specs.Form.{processor_of};
ghost use Rattle.pg_machine.specs.Listed.{state_of, processor_at};
ghost use Rattle.pg_machine.specs.Machine.{start, MayTake, after};
ghost use Rattle.pg_machine.specs.Refused.{Lacks, adds, adds_event};
ghost use Rattle.pg_machine.specs.Stepping.{started_processor, root_at, stuck_drop};
ghost use Rattle.pg_machine.specs.Stepping.{stuck_event, stuck_step, next_drop, next_event};
ghost use Rattle.pg_machine.specs.Stepping.{next_step, with_processor, processor_after};
ghost use Rattle.pg_machine.specs.Stepping.{writes_after, IsStuckBy};

mod coming;
mod fills;

use crate::memory::Memory;
use crate::processor::Processor;
use crate::step::{Member, Step};
use crate::stuck::Stuck;
use pg_entry::{Cfg, Level, marked};
use pg_event::{Control, Event, Header, MemoryChange, Parent, processor_of, root_of, well_formed};
use std::alloc::{AllocError, Global};
use std::marker::Model;

/// A machine of several processors under 4-level paging with PCIDs (Intel SDM, vol. 3, 4.10), which
/// takes one step after another. It is plain: it lists what was written and what its caches hold.
#[derive(Debug, Drop)]
pub struct Machine {
    header: Header,
    memory: Memory,
    processors: Vec<Processor>,
}

impl Model for Machine {
    ghost use Rattle.pg_machine.specs.Listed.{Listed, IsWhole};

    ghost Value = { Listed };

    ghost view = { λ m. record {
      head = m.header;
      writes = m.memory;
      processors = m.processors.items;
    } };

    ghost invariant = { λ m. IsWhole (record {
      head = m.header;
      writes = m.memory;
      processors = m.processors.items;
    }) };
}

impl Machine {
    /// The machine at the start of a run: memory is 0, the control registers are as the header says
    /// and the caches hold nothing. Fails only when out of memory.
    pub fn start(alloc: Global, header: &Header) -> Result<Machine, AllocError>
        requires width { (36 ≤ header.now.cfg.m) × (header.now.cfg.m ≤ 52) }
        ensures state { IfOk result (λ m. state_of m ≡ start header.now) }
        ensures head { IfOk result (λ m. m.head ≡ header.now) }
    {
        let header = header.clone()?;
        let processors = started_processors(alloc, &header)?;
        Ok(Machine {
            header,
            memory: Memory::new(alloc),
            processors,
        })
    }

    /// Takes a step, if the manual's machine may. `Stuck` says what lacks, and then nothing has
    /// changed. The moments of an event are not looked at.
    pub fn step(&mut self, step: &Step) -> Result<(), Stuck>
        ensures taken { OnOk result (MayTake self.old.head (state_of self.old) step.now) }
        ensures after { OnOk result
            (state_of self.new ≡ after self.old.head (state_of self.old) step.now) }
        ensures head { self.new.head ≡ self.old.head }

        ensures refused { IfErr result
            (λ e. e ≢ Stuck.Memory → ¬ MayTake self.old.head (state_of self.old) step.now) }
        ensures reason { IfErr result (Lacks self.old.head (state_of self.old) step.now) }
        ensures err { OnErr result (self.new ≡ self.old) }
    {
        // A use of a field gives the proof what every machine keeps.
        let _ = &self.header;
        self.apply(step)
    }

    fn apply(&mut self, step: &Step) -> Result<(), Stuck>
        ensures ok { OnOk result ((stuck_step self.old step.now ≡ None)
            × (self.new ≡ next_step self.old step.now)) }
        ensures err { IfErr result (λ e. IsStuckBy (adds step.now) (stuck_step self.old step.now) e
            × (self.new ≡ self.old)) }
    {
        match *step {
            Step::Fill4 { p, la } => {
                let root = self.root(p);
                self.fill_table(p, la, Level::Four, root)
            }
            Step::Fill3 { p, la, from } => self.fill_table(p, la, Level::Three, from),
            Step::Fill2 { p, la, from } => self.fill_table(p, la, Level::Two, from),
            Step::FillLeaf { p, la, level, from } => self.fill_leaf(p, la, level, from),
            Step::Drop { p, member } => self.drop_member(p, &member),
            Step::Do(event) => self.take(&event),
        }
    }

    fn cfg(&self) -> Cfg
        ensures value { result ≡ self.now.head.cfg }
        ensures width { (36 ≤ result.m) × (result.m ≤ 52) }
    {
        self.header.cfg
    }

    /// The table that a walk of a processor starts in, and 0 where there is no such processor.
    fn root(&self, p: u16) -> Parent
        ensures { result ≡ root_at self.now p }
    {
        root_of(match self.processors.get(p as usize) {
            Some(processor) => processor.control(),
            None => Control {
                root: 0,
                pcid: 0,
                pge: false,
            },
        })
    }

    #[tactic(auto, using(crate::proofs::Processors::processor_at_read))]
    fn processor(&self, p: u16) -> &Processor
        requires { p < length self.now.processors }
        ensures { result.now ≡ processor_at self.now.processors p }
    {
        &self.processors[p as usize]
    }

    #[tactic(auto, using(crate::proofs::Processors::processor_at_read))]
    fn drop_member(&mut self, p: u16, member: &Member) -> Result<(), Stuck>
        ensures ok { OnOk result ((stuck_drop self.old p member.now ≡ None)
            × (self.new ≡ next_drop self.old p member.now)) }
        ensures err { IfErr result (λ e. IsStuckBy false (stuck_drop self.old p member.now) e
            × (self.new ≡ self.old)) }
    {
        if p as usize >= self.processors.len() {
            return Err(Stuck::Processor);
        }
        if !self.processor(p).has_member(member) {
            return Err(Stuck::Member);
        }
        self.processors[p as usize].drop_member(member);
        Ok(())
    }

    fn take(&mut self, event: &Event) -> Result<(), Stuck>
        ensures ok { OnOk result ((stuck_event self.old event.now ≡ None)
            × (self.new ≡ next_event self.old event.now)) }
        ensures err { IfErr result
            (λ e. IsStuckBy (adds_event event.now) (stuck_event self.old event.now) e
            × (self.new ≡ self.old)) }
    {
        if let Err(rule) = well_formed(&self.header, event) {
            return Err(Stuck::Malformed(rule));
        }
        if let Some(stuck) = self.stuck_coming(event) {
            return Err(stuck);
        }
        if self.write(event).is_err() {
            return Err(Stuck::Memory);
        }
        self.take_at(processor_of(event), event);
        Ok(())
    }

    /// What an event does to its own processor.
    #[tactic(auto, using(crate::proofs::Processors::processor_at_read))]
    fn take_at(&mut self, p: u16, event: &Event)
        requires { p < length self.old.processors }
        ensures { self.new ≡ with_processor self.old p
            (processor_after self.old.head.cfg event.now (processor_at self.old.processors p)) }
    {
        let cfg = self.cfg();
        self.processors[p as usize].take(cfg, event);
    }

    /// What an event does to memory. Flags are set in the word as it is now.
    fn write(&mut self, event: &Event) -> Result<(), AllocError>
        ensures ok { OnOk result
            (self.new ≡ record self.old { writes = writes_after self.old.writes event.now }) }
        ensures err { OnErr result (self.new ≡ self.old) }
        ensures adds { OnErr result (adds_event event.now ≡ true) }
    {
        match event.memory_change() {
            MemoryChange::Nothing => Ok(()),
            MemoryChange::Value { addr, value } => self.memory.write(addr, value),
            MemoryChange::Flags { addr, dirty } => {
                let entry = marked(self.memory.entry(addr), dirty);
                self.memory.write(addr, entry.0)
            }
        }
    }
}

fn started_processors(alloc: Global, header: &Header) -> Result<Vec<Processor>, AllocError>
    requires width { (36 ≤ header.now.cfg.m) × (header.now.cfg.m ≤ 52) }
    ensures { IfOk result
        (λ v. v.items ≡ map (started_processor header.now.cfg.m) header.now.processors) }
{
    let maxphyaddr = header.cfg.m;
    header
        .processors
        .iter()
        .map(|start| Processor::started(alloc, maxphyaddr, *start))
        .collect(alloc)
}
