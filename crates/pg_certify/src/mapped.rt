//! When frames were mapped, to guess from. Nothing is claimed of it.

use pg_event::Event;
use pg_search::KeptRun;
use std::alloc::Global;
use std::collections::HashMap;

/// The events of a run, to look for writes among them.
#[derive(Clone, Copy)]
pub(crate) enum Events<'a> {
    Whole(&'a [Event]),
    Kept(&'a KeptRun),
}

/// So many of the moments at which a frame was mapped last are kept.
const MOST: usize = 4;

/// The numbers of the frames that an address lies in, by the size of the page.
fn frames_of(page: u64) -> [u64; 3] {
    [page >> 12, page >> 21 << 9, page >> 30 << 18]
}

/// For each frame, the last moments from which on a word referred to it, the newest first, and 0
/// where there were fewer.
#[derive(Drop)]
pub(crate) struct Mapped {
    moments: HashMap<u64, [u32; MOST]>,
    /// The place of the next event that is to be looked at, among all or among the changes.
    next: usize,
}

impl Mapped {
    pub(crate) fn new(alloc: Global) -> Mapped {
        Mapped {
            moments: HashMap::new(alloc),
            next: 0,
        }
    }

    /// The moments of a frame.
    fn of(&self, frame: u64) -> [u32; MOST] {
        match self.moments.get(&frame) {
            Some(moments) => *moments,
            None => [0; MOST],
        }
    }

    /// Keeps that a word refers to a frame from a moment on. Where memory is refused it is not
    /// kept.
    fn note(&mut self, frame: u64, moment: u32) {
        let [first, second, third, _] = self.of(frame);
        let newest = [moment, first, second, third];
        let _refused = self.moments.insert(frame, newest).is_err();
    }

    /// Keeps from which moment on a word refers to a frame, if this event before it writes it.
    fn note_write(&mut self, event: &Event, moment: u32) {
        if let Event::Write { value, .. } = *event {
            self.note((value >> 12) % (1 << 40), moment);
        }
    }

    fn look_whole(&mut self, events: &[Event], number: u32) {
        let end = events.len().min(number as usize);
        for i in self.next..end {
            self.note_write(&events[i], i as u32 + 1);
        }
        self.next = self.next.max(end);
    }

    fn look_kept(&mut self, kept: &KeptRun, number: u32) {
        for place in self.next..kept.len() {
            let Some((at, event)) = kept.change(place) else {
                return;
            };
            if at >= number {
                return;
            }
            self.note_write(&event, at + 1);
            self.next = place + 1;
        }
    }

    /// Looks at the events up to this one.
    pub(crate) fn look(&mut self, events: Events<'_>, number: u32) {
        match events {
            Events::Whole(events) => self.look_whole(events, number),
            Events::Kept(kept) => self.look_kept(kept, number),
        }
    }

    /// The moments at which a page that has a physical address was mapped last, by its size.
    pub(crate) fn moments_of(&self, page: u64) -> [u32; 12] {
        let [small, large, huge] = frames_of(page);
        let ([a, b, c, d], [e, f, g, h], [i, j, k, l]) = (
            self.of(small),
            self.of(large),
            self.of(huge),
        );
        [a, b, c, d, e, f, g, h, i, j, k, l]
    }
}
