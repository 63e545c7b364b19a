// The frame of a sheet: its head, where its schedules are, and the rules 1 to 3.
ghost use Rattle.std.specs.Prelude.{◌≡◌, ◌+◌, ◌*◌, ◌<◌, ◌≤◌};
ghost use Rattle.sheet.specs.Sheet.{columns, rows, nodes, schedules, schedule_place, period, entries_of};
ghost use Rattle.sheet.specs.Rules.{rule1, rule2, rule3};
ghost use Rattle.sheet.specs.Inner.Passed.{Headed, Framed, Placed};
ghost use Rattle.sheet.specs.Inner.Frame.{place_after};

use super::head::{circuits_of, columns_of, grid_of, memory_of, nodes_of, rows_of, schedules_of};
use torus::Grid;

// The most words that a sheet can have: a head, 64 circuits, and 8 schedules of 256 entries.
pub const SHEET_WORDS: u32 = 5 + 6 * 64 + 8 * (2 + 4 * 256);

// Number 1: the sheet has its five head words.
pub fn keeps_rule1(z: &[u32]) -> bool
    ensures { result ≡ rule1 z.now }
{
    5 <= z.len()
}

// Number 2: each head number is in its range.
pub fn keeps_rule2(z: &[u32]) -> bool
    ensures { result ≡ rule2 z.now }
{
    words::is_between(2, 4, columns_of(z))
        && words::is_between(2, 4, rows_of(z))
        && words::is_between(1, 16384, memory_of(z))
        && words::is_between(0, 64, circuits_of(z))
        && words::is_between(1, 8, schedules_of(z))
}

// The place behind the schedule at a place, where that begins within the sheet and states few enough entries.
fn place_after(z: &[u32], at: usize) -> Option<usize>
    requires { at < 65536 }
    ensures { result ≡ place_after z.now at }
{
    if z.len() < at + 2 {
        return None;
    }
    let count = words::get(z, at + 1);
    if count > 256 {
        return None;
    }
    Some(at + 2 + 4 * (count as usize))
}

// Number 3: the schedules fill the sheet to its end. The checker calls it once the rules 1 and 2 are kept.
pub fn keeps_rule3(z: &[u32]) -> bool
    requires { Headed z.now }
    ensures { result ≡ rule3 z.now }
{
    let mut at = 5 + 6 * (circuits_of(z) as usize);
    for _ in 0..schedules_of(z) {
        let Some(after) = place_after(z, at) else {
            return false;
        };
        at = after;
    }
    at == z.len()
}

// A sheet whose frame is right: the rules 1 to 3 are kept.
#[derive(Clone, Copy)]
pub struct Frame<'a> {
    pub words: &'a [u32],
    pub ghost framed: { Framed words.now },
}

impl<'a> Frame<'a> {
    // The grid.
    pub fn grid(self) -> Grid
        ensures cols { result.cols ≡ columns self.entry.words.now }
        ensures rows { result.rows ≡ rows self.entry.words.now }
    {
        grid_of(self.words)
    }

    // The number of nodes.
    pub fn nodes(self) -> u32
        ensures { (result ≡ nodes self.entry.words.now) × (result ≤ 16) }
    {
        nodes_of(self.words)
    }

    // The place of schedule j. Whoever counts the head's schedules meets the requires, here and below.
    pub fn schedule_place(self, j: u32) -> usize
        requires { j < schedules self.words.now }
        ensures { (result ≡ schedule_place self.entry.words.now j) × Placed self.entry.words.now result }
    {
        let mut at = 5 + 6 * (circuits_of(self.words) as usize);
        for _ in 0..j {
            at = at + 2 + 4 * (words::get(self.words, at + 1) as usize);
        }
        at
    }

    // The period of schedule j.
    pub fn schedule_period(self, j: u32) -> u32
        requires { j < schedules self.words.now }
        ensures { result ≡ period self.entry.words.now j }
    {
        let at = self.schedule_place(j);
        words::get(self.words, at)
    }

    // The entries of schedule j, as that part of the sheet.
    pub fn entries(self, j: u32) -> &'a [u32]
        requires { j < schedules self.words.now }
        ensures { result.now ≡ entries_of self.entry.words.now j }
    {
        let at = self.schedule_place(j);
        let from = at + 2;
        let to = at + 2 + 4 * (words::get(self.words, at + 1) as usize);
        &self.words[from..to]
    }
}

// The same of a sheet that is not at hand as a frame: what the crates above have is that its state is sound. Whoever has checked the rules 1 to 3, or
// found a state sound, meets the requires, here and below.
pub fn schedule_place(z: &[u32], j: u32) -> usize
    requires { (Framed z.now) × (j < schedules z.now) }
    ensures { (result ≡ schedule_place z.now j) × Placed z.now result }
{
    Frame { words: z }.schedule_place(j)
}

// The entries of schedule j, as that part of the sheet.
pub fn entries_of(z: &[u32], j: u32) -> &[u32]
    requires { (Framed z.now) × (j < schedules z.now) }
    ensures { result.now ≡ entries_of z.now j }
{
    Frame { words: z }.entries(j)
}
