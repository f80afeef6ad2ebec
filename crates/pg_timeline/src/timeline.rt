ghost use Rattle.std.specs.Prelude.{◌≡◌, ◌+◌, ◌-◌, ◌<◌, ◌≤◌, ◌^◌, ℕ, min, List, [], ◌∷◌, ◌++◌};
ghost use Rattle.std.specs.Prelude.{length, Some, OnOk, OnErr};
ghost use Rattle.std.specs.Option.{unwrap_or};
ghost use Rattle.pg_timeline.specs.Timelines.{end_of, last_before, first_from, cut_at, count_below};
ghost use Rattle.pg_timeline.specs.Timelines.{IsRising, IsLeastFrom, IsSpan, moment_in, has_moment};
ghost use Rattle.pg_timeline.specs.Keyed.{AreBelow};

use crate::probes::Probes;
use smallvec::SmallVec;
use std::alloc::{AllocError, Global};
use std::marker::Model;

/// A value, and the moment from just after which it holds.
#[derive(Clone, Copy, Default)]
pub struct Stamp<V> {
    /// The number of an event.
    pub moment: u32,
    pub value: V,
}

/// A value, and the first and the last of moments at which it is the same.
#[derive(Clone, Copy)]
pub struct Span<V> {
    pub value: V,
    pub from: u32,
    pub to: u32,
}

/// Values whose moments rise.
#[derive(Drop)]
pub struct Timeline<V> {
    stamps: SmallVec<Stamp<V>, 1>,
}

impl<V> Model for Timeline<V> {
    ghost use Rattle.std.specs.Prelude.{List};
    ghost use Rattle.pg_timeline.specs.declared.timeline.Stamp.{Stamp};

    ghost Value = { List (Stamp V) };

    ghost use Rattle.pg_timeline.specs.Timelines.{IsKept};

    ghost view = { λ a. a.stamps.items };

    ghost invariant = { λ a. IsKept a.stamps.items };
}

/// The moment of a stamp. Look-ups read moments here alone, and each reading is a probe.
fn moment_at<V: Copy>(stamps: &[Stamp<V>], i: usize, probes: &mut Probes) -> u32
    requires { i < length stamps.now }
    ensures moment { moment_in stamps.now i ≡ Some result }
    ensures probes { probes.new ≡ min (probes.old + 1) (2 ^ 64 - 1) }
    ensures more { probes.old ≤ probes.new }
{
    probes.tick();
    stamps[i].moment
}

/// How many stamps lie below a moment, by halving, where the count lies between two.
fn count_between<V: Copy>(
    stamps: &[Stamp<V>],
    from: usize,
    to: usize,
    moment: u32,
    probes: &mut Probes,
) -> usize
    requires rising { IsRising stamps.now }
    requires low { from ≤ count_below moment stamps.now }
    requires high { count_below moment stamps.now ≤ to }
    requires within { to ≤ length stamps.now }
    ensures count { result ≡ count_below moment stamps.now }
    ensures more { probes.old ≤ probes.new }
    ensures probes { (n : ℕ) → to < from + 2 ^ n → probes.new ≤ probes.old + n }
{
    let mut low = from;
    let mut high = to;
    while low < high {
        let middle = low + (high - low) / 2;
        if moment_at(stamps, middle, probes) < moment {
            low = middle + 1;
        } else {
            high = middle;
        }
    }
    low
}

/// How many stamps lie below a moment, where these first ones do. The last stamp is looked at
/// first: most look-ups ask of a moment after it.
fn count_after<V: Copy>(stamps: &[Stamp<V>], from: usize, moment: u32, probes: &mut Probes) -> usize
    requires rising { IsRising stamps.now }
    requires low { from ≤ count_below moment stamps.now }
    requires some { from < length stamps.now }
    ensures count { result ≡ count_below moment stamps.now }
    ensures more { probes.old ≤ probes.new }
    ensures probes { (n : ℕ) → length stamps.now ≤ from + 2 ^ n →
        probes.new ≤ probes.old + (n + 1) }
{
    let last = stamps.len() - 1;
    if moment_at(stamps, last, probes) < moment {
        stamps.len()
    } else {
        count_between(stamps, from, last, moment, probes)
    }
}

/// So many of the last stamps are looked at first: most look-ups ask of a moment near the end.
const LAST: usize = 64;

/// How many stamps lie below a moment.
fn count_before<V: Copy>(stamps: &[Stamp<V>], moment: u32, probes: &mut Probes) -> usize
    requires rising { IsRising stamps.now }
    requires short { length stamps.now ≤ 2 ^ 32 }
    ensures within { result ≤ length stamps.now }
    ensures count { result ≡ count_below moment stamps.now }
    ensures probes { (probes.old ≤ probes.new) × (probes.new ≤ probes.old + 33) }
{
    let count = stamps.len();
    if count == 0 {
        return 0;
    }
    if count <= LAST {
        return count_after(stamps, 0, moment, probes);
    }
    let near = count - LAST;
    if moment_at(stamps, near, probes) < moment {
        count_after(stamps, near + 1, moment, probes)
    } else {
        count_between(stamps, 0, near, moment, probes)
    }
}

/// From which moment on so many stamps lie below, or more.
fn begin_of<V: Copy>(stamps: &[Stamp<V>], count: usize, moment: u32, probes: &mut Probes) -> u32
    requires rising { IsRising stamps.now }
    requires count { count ≡ count_below moment stamps.now }
    requires within { count ≤ length stamps.now }
    ensures low { result ≤ moment }
    ensures below { (w : ℕ) → result ≤ w → count ≤ count_below w stamps.now }
    ensures probes { (probes.old ≤ probes.new) × (probes.new ≤ probes.old + 1) }
{
    if count == 0 {
        0
    } else {
        moment_at(stamps, count - 1, probes) + 1
    }
}

/// Up to which moment so many stamps lie below, or fewer.
fn last_of<V: Copy>(stamps: &[Stamp<V>], count: usize, moment: u32, probes: &mut Probes) -> u32
    requires rising { IsRising stamps.now }
    requires count { count ≡ count_below moment stamps.now }
    ensures high { moment ≤ result }
    ensures above { (w : ℕ) → w ≤ result → count_below w stamps.now ≤ count }
    ensures probes { (probes.old ≤ probes.new) × (probes.new ≤ probes.old + 1) }
{
    if count < stamps.len() {
        moment_at(stamps, count, probes)
    } else {
        u32::MAX
    }
}

/// The value of the last of so many stamps, or another where there are none.
fn value_after<V: Copy>(stamps: &[Stamp<V>], count: usize, start: V) -> V
    requires rising { IsRising stamps.now }
    requires within { count ≤ length stamps.now }
    ensures { (w : ℕ) → count_below w stamps.now ≡ count →
        unwrap_or (last_before w stamps.now) start ≡ result }
{
    if count == 0 {
        start
    } else {
        stamps[count - 1].value
    }
}

impl<V: Copy + Default> Timeline<V> {
    /// No value.
    pub fn new(alloc: Global) -> Timeline<V>
        ensures { result ≡ [] }
    {
        Timeline {
            stamps: SmallVec::new(alloc),
        }
    }

    /// Adds a value from a moment on. Fails where memory is refused, and then nothing is added.
    pub fn push(&mut self, moment: u32, value: V) -> Result<(), AllocError>
        requires { end_of self.old ≤ moment }
        ensures ok { OnOk result
            (self.new ≡ self.old ++ record { moment = moment; value = value } ∷ []) }
        ensures err { OnErr result (self.new ≡ self.old) }
    {
        self.stamps.push(Stamp { moment, value })?;
        Ok(())
    }

    /// The value of the last stamp, which is what every moment after it reads.
    #[inline(always)]
    pub fn last(&self) -> Option<V>
        ensures { (w : ℕ) → AreBelow w self.now → result ≡ last_before w self.now }
    {
        match self.stamps.as_slice().last() {
            Some(stamp) => Some(stamp.value),
            None => None,
        }
    }

    /// The value of the last stamp below a moment.
    pub fn last_before(&self, moment: u32, probes: &mut Probes) -> Option<V>
        ensures value { result ≡ last_before moment self.now }
        ensures probes { (probes.old ≤ probes.new) × (probes.new ≤ probes.old + 34) }
    {
        let stamps = self.stamps.as_slice();
        let count = count_before(stamps, moment, probes);
        if count == 0 {
            None
        } else {
            Some(stamps[count - 1].value)
        }
    }

    /// The value of the last stamp below a moment, or another where there is none, and the moments
    /// around it at which it is the same.
    pub fn span_at(&self, moment: u32, start: V, probes: &mut Probes) -> Span<V>
        ensures span { IsSpan (λ w. unwrap_or (last_before w self.now) start) moment result }
        ensures probes { (probes.old ≤ probes.new) × (probes.new ≤ probes.old + 35) }
    {
        let stamps = self.stamps.as_slice();
        let count = count_before(stamps, moment, probes);
        Span {
            value: value_after(stamps, count, start),
            from: begin_of(stamps, count, moment, probes),
            to: last_of(stamps, count, moment, probes),
        }
    }

    /// The least moment of a stamp that is not below this one.
    pub fn first_from(&self, moment: u32, probes: &mut Probes) -> Option<u32>
        ensures value { result ≡ first_from moment self.now }
        ensures least { IsLeastFrom (has_moment self.now) moment result }
        ensures probes { (probes.old ≤ probes.new) × (probes.new ≤ probes.old + 34) }
    {
        let stamps = self.stamps.as_slice();
        let count = count_before(stamps, moment, probes);
        if count < stamps.len() {
            Some(moment_at(stamps, count, probes))
        } else {
            None
        }
    }

    /// Forgets the values from a moment on.
    pub fn forget_from(&mut self, moment: u32)
        ensures { self.new ≡ cut_at moment self.old }
    {
        let count = count_before(self.stamps.as_slice(), moment, &mut Probes::new());
        self.stamps.truncate(count);
    }
}
