// The entries of a schedule, and the rules 7 and 8.
ghost use Rattle.std.specs.Prelude.{◌≡◌, ◌+◌, ◌-◌, ◌*◌, ◌/◌, ◌<◌};
ghost use Rattle.words.specs.Tests.{all};
ghost use Rattle.sheet.specs.Sheet.{schedules, entry_count, entry_at};
ghost use Rattle.sheet.specs.Rules.{entry_fits, entry_precedes, rule7_at, rule7, rule8};

use super::frame::Frame;
use super::head::{circuits_of, schedules_of};

// An entry of a schedule: the slot of a circuit, and its packets' route.
#[derive(Clone, Copy)]
pub struct Entry {
    pub offset: u32,
    pub size: u32,
    pub circuit: u32,
    pub route: u32,
}

impl Entry {
    // Entry i of a schedule's entries, which lie in memory: four words each. Whoever stays below their count meets the requires.
    pub fn at(entries: &[u32], i: usize) -> Entry
        requires { i < entry_count entries.now }
        ensures { result ≡ entry_at entries.now i }
    {
        let at = 4 * i;
        Entry {
            offset: entries[at],
            size: entries[at + 1],
            circuit: entries[at + 2],
            route: entries[at + 3],
        }
    }

    // Number 7 at one entry, with the number of circuits and the period.
    pub fn fits(self, circuits: u32, period: u32) -> bool
        ensures { result ≡ entry_fits circuits period self }
    {
        self.offset < period
            && words::is_between(2, 16, self.size)
            && self.circuit < circuits
            && self.route <= 65535
    }

    // Number 8 at one entry and the next.
    fn is_before(self, next: Entry) -> bool
        ensures { result ≡ entry_precedes self next }
    {
        (self.offset, self.circuit) < (next.offset, next.circuit)
    }
}

// Number 7 at the entries of a schedule.
fn entries_fit(entries: &[u32], circuits: u32, period: u32) -> bool
    ensures { result ≡ all (entry_count entries.now) (λ i. entry_fits circuits period (entry_at entries.now i)) }
{
    (0..entries.len() / 4).all(|i| Entry::at(entries, i).fits(circuits, period))
}

// Number 8 at the entries of a schedule.
fn entries_ascend(entries: &[u32]) -> bool
    ensures { result ≡ all (entry_count entries.now - 1) (λ i. entry_precedes (entry_at entries.now i) (entry_at entries.now (i + 1))) }
{
    let pairs = (entries.len() / 4).saturating_sub(1);
    (0..pairs).all(|i| Entry::at(entries, i).is_before(Entry::at(entries, i + 1)))
}

impl Frame<'_> {
    // Number 7 at schedule j.
    fn schedule_fits(self, j: u32) -> bool
        requires { j < schedules self.words.now }
        ensures { result ≡ rule7_at self.entry.words.now j }
    {
        let period = self.schedule_period(j);
        words::is_between(9, 1024, period)
            && entries_fit(self.entries(j), circuits_of(self.words), period)
    }

    // Number 7: each period and each entry's offset, length, circuit and route is in its range.
    pub fn keeps_rule7(self) -> bool
        ensures { result ≡ rule7 self.entry.words.now }
    {
        (0..schedules_of(self.words)).all(|j| self.schedule_fits(j))
    }

    // Number 8: the entries of each schedule strictly ascend by offset and circuit.
    pub fn keeps_rule8(self) -> bool
        ensures { result ≡ rule8 self.entry.words.now }
    {
        (0..schedules_of(self.words)).all(|j| entries_ascend(self.entries(j)))
    }
}
