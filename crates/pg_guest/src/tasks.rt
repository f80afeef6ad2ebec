//! The instructions of a script, each with its processor, in the order of the lines.

ghost use Rattle.std.specs.Prelude.{◌≡◌, ◌<◌, ◌≤◌, ◌∷◌, ◌++◌, [], ℕ, length, OnOk, OnErr};
ghost use Rattle.std.specs.Prelude.{vec_len};
ghost use Rattle.pg_guest.specs.Tasks.{instructions_of, order_of};
ghost use Rattle.pg_guest.specs.Dealt.{list_at, own_of};

use crate::instruction::{Instruction, Task};
use std::alloc::{AllocError, Global};
use std::marker::Model;

/// Kept as the processors in the order of the lines, and for each processor its own instructions.
#[derive(Drop)]
pub(crate) struct Tasks {
    order: Vec<u16>,
    /// By the number of the processor, as far as the last that has an instruction.
    lists: Vec<Vec<Instruction>>,
}

impl Model for Tasks {
    ghost use Rattle.std.specs.Prelude.{List};
    ghost use Rattle.pg_guest.specs.declared.instruction.Task.{Task};
    ghost use Rattle.pg_guest.specs.Dealt.{dealt, list_at, AreDealt};

    ghost Value = { List Task };

    ghost view = { λ t. dealt t.order.items (list_at t.lists.items) };

    ghost invariant = { λ t. AreDealt t.order.items (list_at t.lists.items)
        (dealt t.order.items (list_at t.lists.items)) };
}

impl Tasks {
    /// No instructions yet.
    pub(crate) fn new(alloc: Global) -> Tasks
        ensures { result ≡ [] }
    {
        Tasks {
            order: Vec::new(alloc),
            lists: Vec::new(alloc),
        }
    }

    pub(crate) fn len(&self) -> usize
        ensures { result ≡ length self.now }
    {
        self.order.len()
    }

    /// The processors in the order of the lines.
    pub(crate) fn order(&self) -> &[u16]
        ensures { result.now ≡ order_of self.now }
    {
        self.order.as_slice()
    }

    /// The instructions of a processor in the order of the lines.
    pub(crate) fn instructions(&self, p: u16) -> &[Instruction]
        ensures { result.now ≡ instructions_of p self.now }
    {
        match self.lists.get(p as usize) {
            Some(list) => list.as_slice(),
            None => &[],
        }
    }

    /// One more at the end. Where memory is refused, nothing is added.
    pub(crate) fn push(&mut self, alloc: Global, task: &Task) -> Result<(), AllocError>
        ensures ok { OnOk result (self.new ≡ self.old ++ task.now ∷ []) }
        ensures err { OnErr result (self.new ≡ self.old) }
    {
        let place = task.p as usize;
        grow_to(alloc, &mut self.lists, place + 1)?;
        self.order.reserve(1)?;
        push_at(&mut self.lists, place, &task.instruction)?;
        self.order.push_reserved(task.p);
        Ok(())
    }
}

/// Empty lists at the end, until there are so many.
fn grow_to(alloc: Global, lists: &mut Vec<Vec<Instruction>>, count: usize) -> Result<(), AllocError>
    ensures same { (p : ℕ) →
        list_at lists.new.items p ≡ list_at lists.old.items p }
    ensures enough { OnOk result (count ≤ vec_len lists.new) }
{
    for _ in lists.len()..count {
        lists.push(Vec::new(alloc))?;
    }
    Ok(())
}

/// An instruction at the end of the list at a place.
fn push_at(
    lists: &mut Vec<Vec<Instruction>>,
    place: usize,
    instruction: &Instruction,
) -> Result<(), AllocError>
    requires { place < vec_len lists.old }
    ensures ok { OnOk result ((p : ℕ) →
        list_at lists.new.items p ≡ list_at lists.old.items p ++ own_of place p instruction.now) }
    ensures err { OnErr result ((p : ℕ) →
        list_at lists.new.items p ≡ list_at lists.old.items p) }
{
    lists[place].push(*instruction)?;
    Ok(())
}
