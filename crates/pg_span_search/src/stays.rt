//! Which PCID and root a processor has in its slots, which are the same in all orders.

use crate::numbers::{NEVER, number};
use pg_event::Control;
use std::alloc::{AllocError, Global};
use std::collections::HashMap;

/// Slots in which a processor has one PCID and root.
#[derive(Clone, Copy)]
pub(crate) struct Stay {
    pub first: u32,
    pub last: u32,
    pub root: u64,
}

/// The slots of a processor from one on in which its control registers are so.
#[derive(Clone, Copy)]
struct Since {
    first: u32,
    control: Control,
}

/// Of each processor its control registers by slots, and its stays by PCIDs.
#[derive(Drop)]
pub(crate) struct Stays {
    alloc: Global,
    controls: Vec<Vec<Since>>,
    ids: HashMap<u64, u32>,
    stays: Vec<Vec<Stay>>,
    pcids: Vec<Vec<u16>>,
}

fn key(p: u16, pcid: u16) -> u64 {
    (p as u64) << 16 | pcid as u64
}

impl Stays {
    pub(crate) fn new(alloc: Global) -> Stays {
        Stays {
            alloc,
            controls: Vec::new(alloc),
            ids: HashMap::new(alloc),
            stays: Vec::new(alloc),
            pcids: Vec::new(alloc),
        }
    }

    /// One more processor, which has these control registers at the start.
    pub(crate) fn push(&mut self, control: Control) -> Result<(), AllocError> {
        let mut list = Vec::new(self.alloc);
        list.push(Since { first: 0, control })?;
        self.controls.push(list)?;
        self.pcids.push(Vec::new(self.alloc))?;
        Ok(())
    }

    /// From this slot on the processor has these control registers.
    pub(crate) fn change(
        &mut self,
        p: u16,
        first: u32,
        control: Control,
    ) -> Result<(), AllocError> {
        if let Some(list) = self.controls.get_mut(p as usize) {
            list.push(Since { first, control })?;
        }
        Ok(())
    }

    /// The control registers in a slot.
    pub(crate) fn control(&self, p: u16, slot: u32) -> Control {
        let Some(list) = self.controls.get(p as usize) else {
            return Control::default();
        };
        // While the slots are noted one after another, it is the last.
        if let Some(since) = list.last() {
            if since.first <= slot {
                return since.control;
            }
        }
        let count = list.partition_point(|since| since.first <= slot);
        match list.get(count.wrapping_sub(1)) {
            Some(since) => since.control,
            None => Control::default(),
        }
    }

    fn id_of(&mut self, p: u16, pcid: u16) -> Result<u32, AllocError> {
        if let Some(id) = self.ids.get(&key(p, pcid)) {
            return Ok(*id);
        }
        let id = number(self.stays.len());
        self.stays.push(Vec::new(self.alloc))?;
        self.ids.insert(key(p, pcid), id)?;
        if let Some(pcids) = self.pcids.get_mut(p as usize) {
            pcids.push(pcid)?;
        }
        Ok(id)
    }

    fn push_stay(&mut self, p: u16, pcid: u16, stay: Stay) -> Result<(), AllocError> {
        let id = self.id_of(p, pcid)?;
        let Some(list) = self.stays.get_mut(id as usize) else {
            return Ok(());
        };
        if let Some(before) = list.last_mut() {
            if before.last.saturating_add(1) == stay.first && before.root == stay.root {
                before.last = stay.last;
                return Ok(());
            }
        }
        list.push(stay)?;
        Ok(())
    }

    /// Lists all stays, once all control registers are known.
    pub(crate) fn list_all(&mut self) -> Result<(), AllocError> {
        for p in 0..number(self.controls.len()) {
            let p = u16::try_from(p).unwrap_or(0);
            for i in 0..self.controls.get(p as usize).map_or(0, |list| list.len()) {
                self.list(p, i)?;
            }
        }
        Ok(())
    }

    fn list(&mut self, p: u16, i: usize) -> Result<(), AllocError> {
        let Some(list) = self.controls.get(p as usize) else {
            return Ok(());
        };
        let Some(since) = list.get(i).copied() else {
            return Ok(());
        };
        let last = match list.get(i.saturating_add(1)) {
            Some(next) => next.first.saturating_sub(1),
            None => NEVER - 1,
        };
        let Control { root, pcid, .. } = since.control;
        self.push_stay(
            p,
            pcid,
            Stay {
                first: since.first,
                last,
                root,
            },
        )
    }

    /// The stays of a processor under a PCID.
    pub(crate) fn of(&self, p: u16, pcid: u16) -> &[Stay] {
        match self.ids.get(&key(p, pcid)) {
            Some(id) => match self.stays.get(*id as usize) {
                Some(list) => list.as_slice(),
                None => &[],
            },
            None => &[],
        }
    }

    /// The PCIDs that a processor ever has.
    pub(crate) fn pcids(&self, p: u16) -> &[u16] {
        match self.pcids.get(p as usize) {
            Some(list) => list.as_slice(),
            None => &[],
        }
    }

    /// The last slot of a PCID that is at most this.
    pub(crate) fn last(&self, p: u16, pcid: u16, slot: u32) -> Option<u32> {
        last_in(self.of(p, pcid), slot)
    }
}

/// The first slot of these stays that is at least this.
pub(crate) fn next_in(stays: &[Stay], slot: u32) -> u32 {
    match stays.get(stays.partition_point(|stay| stay.last < slot)) {
        Some(stay) => stay.first.max(slot),
        None => NEVER,
    }
}

/// The last slot of these stays that is at most this.
pub(crate) fn last_in(stays: &[Stay], slot: u32) -> Option<u32> {
    let count = stays.partition_point(|stay| stay.first <= slot);
    match stays.get(count.wrapping_sub(1)) {
        Some(stay) => Some(stay.last.min(slot)),
        None => None,
    }
}
