//! How many events the bytes of a record have, counted as they come.

ghost use Rattle.std.specs.Prelude.{◌<◌, ◌≤◌, length};

const SEGMENT: u8 = 0x01;

const WRITE: u8 = 0x10;

const ACCESS: u8 = 0x11;

const MOV_CR3: u8 = 0x12;

const INVLPG: u8 = 0x13;

const INVPCID: u8 = 0x14;

const MOV_CR4_PGE: u8 = 0x15;

const ASSIST: u8 = 0x16;

/// What a byte of a record says of what follows it.
#[derive(Clone, Copy, PartialEq, Eq)]
enum Part {
    /// The version's low byte.
    Version,
    /// The low byte of the number of processors.
    Processors,
    /// Its high byte, after this low one.
    MoreProcessors(u8),
    /// The tag of a segment, or of the end.
    Chunk,
    /// A byte of a segment's count of events, with so many after it.
    Count(u8),
    /// The tag of an event.
    Event,
    /// The tag of an access's outcome.
    Outcome,
    /// A count of moments.
    Moments,
    /// A byte of the only moment, with so many after it.
    Moment(u8),
    /// Nothing: an event has ended.
    EventEnd,
    /// Nothing: these bytes are no event, and nor are those after them.
    Rest,
}

/// What the accesses and assists that have come name, all of them.
#[derive(Clone, Copy, PartialEq, Eq)]
enum Naming {
    /// None has come.
    Nothing,
    /// One moment, 0: what a recorder writes that keeps no moments.
    Placeholder,
    /// Some other moment; or the record is of another version, or is none.
    Moments,
}

/// Counts the events of a record of either version by its bytes, and notes whether they name
/// moments. Of bytes that are no record it counts what looks like an event.
#[derive(Drop)]
pub struct Counter {
    part: Part,
    /// So many bytes stand before that part.
    before: u64,
    /// Whether a processor's number has two bytes.
    is_wide: bool,
    /// So many events are left of the segment.
    coming: u32,
    events: u64,
    bytes: u64,
    naming: Naming,
}

/// What follows the tag of an event, where a processor's number has so many bytes.
fn behind_tag(tag: u8, processor: u8) -> (u64, Part) {
    let processor = processor as u64;
    match tag {
        WRITE => (processor + 16, Part::EventEnd),
        ACCESS => (processor + 9, Part::Outcome),
        MOV_CR3 | INVLPG => (processor + 8, Part::EventEnd),
        INVPCID => (processor + 11, Part::EventEnd),
        MOV_CR4_PGE => (processor + 1, Part::EventEnd),
        ASSIST => (processor + 17, Part::Moments),
        _ => (0, Part::Rest),
    }
}

/// What follows the tag of an outcome: a page, or a code.
fn behind_outcome(tag: u8) -> (u64, Part) {
    match tag {
        0 => (8, Part::Moments),
        1 => (2, Part::Moments),
        _ => (0, Part::Rest),
    }
}

/// What follows the number of processors: a segment size, and their registers.
fn behind_processors(low: u8, high: u8) -> (u64, Part) {
    let processors = low as u64 + 256 * high as u64;
    (4 + 9 * processors, Part::Chunk)
}

impl Counter {
    /// Nothing has come. The record begins with its magic.
    pub fn new() -> Counter {
        Counter {
            part: Part::Version,
            before: 8,
            is_wide: false,
            coming: 0,
            events: 0,
            bytes: 0,
            naming: Naming::Nothing,
        }
    }

    /// How many events have come, whole.
    pub fn events(&self) -> u64 {
        self.events
    }

    /// How many bytes have come.
    pub fn bytes(&self) -> u64 {
        self.bytes
    }

    /// Whether some access or assist has come, and each of them has the placeholder of a recorder
    /// that keeps no moments.
    pub fn is_unnamed(&self) -> bool {
        self.naming == Naming::Placeholder
    }

    /// Whether an access or an assist has come that names another moment than that placeholder.
    pub fn is_named(&self) -> bool {
        self.naming == Naming::Moments
    }

    /// Takes in the version, and gives what follows it: its high byte, M and the flags.
    fn behind_version(&mut self, version: u8) -> (u64, Part) {
        self.is_wide = version == 2;
        if version != 1 && version != 2 {
            self.naming = Naming::Moments;
        }
        (3, Part::Processors)
    }

    /// Takes in a byte of a count, the lowest first, and gives what follows it.
    fn behind_count(&mut self, byte: u8, left: u8) -> (u64, Part) {
        self.coming = (self.coming >> 8) | ((byte as u32) << 24);
        if left > 0 {
            (0, Part::Count(left - 1))
        } else {
            (0, Part::Event)
        }
    }

    /// Takes in a count of moments, and gives what follows it.
    fn behind_moments(&mut self, count: u8) -> (u64, Part) {
        if count == 1 && self.naming != Naming::Moments {
            return (0, Part::Moment(3));
        }
        self.naming = Naming::Moments;
        (4 * count as u64, Part::EventEnd)
    }

    /// Takes in a byte of the only moment of an access, and gives what follows it.
    fn behind_moment(&mut self, byte: u8, left: u8) -> (u64, Part) {
        if byte != 0 {
            self.naming = Naming::Moments;
        }
        if left > 0 {
            return (0, Part::Moment(left - 1));
        }
        if self.naming == Naming::Nothing {
            self.naming = Naming::Placeholder;
        }
        (0, Part::EventEnd)
    }

    /// Takes in a byte that says what follows it, and gives that.
    fn behind(&mut self, byte: u8) -> (u64, Part) {
        match self.part {
            Part::Version => self.behind_version(byte),
            Part::Processors if self.is_wide => (0, Part::MoreProcessors(byte)),
            Part::Processors => behind_processors(byte, 0),
            Part::MoreProcessors(low) => behind_processors(low, byte),
            Part::Chunk if byte == SEGMENT => (4, Part::Count(3)),
            Part::Count(left) => self.behind_count(byte, left),
            Part::Event => behind_tag(byte, if self.is_wide { 2 } else { 1 }),
            Part::Outcome => behind_outcome(byte),
            Part::Moments => self.behind_moments(byte),
            Part::Moment(left) => self.behind_moment(byte, left),
            Part::Chunk | Part::EventEnd | Part::Rest => (u64::MAX, Part::Rest),
        }
    }

    /// Counts an event that has ended.
    fn end_event(&mut self) {
        self.events = self.events.saturating_add(1);
        self.coming = self.coming.saturating_sub(1);
        self.part = if self.coming > 0 {
            Part::Event
        } else {
            Part::Chunk
        };
    }

    /// Counts so many bytes, and an event that ends with them.
    fn end_part(&mut self, n: u64) {
        self.bytes = self.bytes.saturating_add(n);
        if self.before == 0 && self.part == Part::EventEnd {
            self.end_event();
        }
    }

    /// Counts on, up to the next byte that says something or the end of an event, and answers how
    /// many bytes it took.
    pub fn take(&mut self, bytes: &[u8]) -> usize
        ensures bound { result ≤ length bytes.now }
        ensures some { 0 < length bytes.now → 0 < result }
    {
        let Some(byte) = bytes.first() else {
            return 0;
        };
        if self.before == 0 {
            let (before, part) = self.behind(*byte);
            self.before = before;
            self.part = part;
            self.end_part(1);
            return 1;
        }
        let n = self.before.min(bytes.len() as u64);
        self.before -= n;
        self.end_part(n);
        n as usize
    }
}
