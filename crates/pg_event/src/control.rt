ghost use Rattle.std.specs.Prelude.{◌≡◌, ◌≤◌, ◌==◌, ℕ, if◌then◌else◌};
ghost use Rattle.pg_event.specs.declared.control.Control.{Control};
ghost use Rattle.pg_event.specs.Form.{processor_of};
ghost use Rattle.pg_event.specs.Meaning.{control_change_of, with_change, changes_some};
ghost use Rattle.pg_event.specs.Values.{loaded, controlled};

use crate::event::Event;
use crate::header::processor_of;
use pg_entry::field;

/// The control registers of a processor, as far as paging reads them.
#[derive(Clone, Copy, Debug, Default)]
pub struct Control {
    /// The physical address of the PML4 table.
    pub root: u64,
    /// The current process-context identifier, of 12 bits.
    pub pcid: u16,
    /// Whether global pages are on (CR4.PGE).
    pub pge: bool,
}

/// What a value in CR3 says (Intel SDM, vol. 3, 4.5), where `m` is MAXPHYADDR. Bit 63 and the bits
/// between it and `m` are not looked at.
pub fn loaded(maxphyaddr: u8, cr3: u64, pge: bool) -> Control
    requires width { (12 ≤ maxphyaddr) × (maxphyaddr ≤ 52) }
    ensures { result ≡ loaded maxphyaddr cr3 pge }
{
    Control {
        root: field(cr3, 12, maxphyaddr as u32),
        pcid: (cr3 % 4096) as u16,
        pge,
    }
}

/// What an event does to the control registers of its processor.
#[derive(Clone, Copy, PartialEq, Eq, Debug)]
pub enum ControlChange {
    /// Nothing.
    Nothing,
    /// CR3 gets this value.
    Cr3(u64),
    /// CR4.PGE gets this value.
    Pge(bool),
}

impl ControlChange {
    /// Whether it may change a register.
    pub fn changes_some(self) -> bool
        ensures { result ≡ changes_some self }
    {
        match self {
            ControlChange::Nothing => false,
            ControlChange::Cr3(_) | ControlChange::Pge(_) => true,
        }
    }
}

impl Event {
    /// What the event does to the control registers of its processor.
    pub fn control_change(&self) -> ControlChange
        ensures value { result ≡ control_change_of self.now }
        ensures controlled { (m p : ℕ) (c : Control) → controlled m p c self.now
            ≡ (if processor_of self.now == p then with_change m c result else c) }
    {
        match *self {
            Event::MovCr3 { operand, .. } => ControlChange::Cr3(operand),
            Event::MovCr4Pge { on, .. } => ControlChange::Pge(on),
            Event::Write { .. }
            | Event::Access { .. }
            | Event::Assist { .. }
            | Event::Invlpg { .. }
            | Event::Invpcid { .. } => ControlChange::Nothing,
        }
    }
}

/// The control registers after a change of them.
fn with_change(maxphyaddr: u8, control: Control, change: ControlChange) -> Control
    requires width { (12 ≤ maxphyaddr) × (maxphyaddr ≤ 52) }
    ensures { result ≡ with_change maxphyaddr control change }
{
    match change {
        ControlChange::Nothing => control,
        ControlChange::Cr3(operand) => loaded(maxphyaddr, operand, control.pge),
        ControlChange::Pge(on) => Control { pge: on, ..control },
    }
}

/// The control registers of processor `p` after an event of any processor.
pub fn controlled(maxphyaddr: u8, p: u16, control: Control, event: &Event) -> Control
    requires width { (12 ≤ maxphyaddr) × (maxphyaddr ≤ 52) }
    ensures { result ≡ controlled maxphyaddr p control event.now }
{
    if processor_of(event) == p {
        with_change(maxphyaddr, control, event.control_change())
    } else {
        control
    }
}
