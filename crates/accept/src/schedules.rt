// The numbers 7 to 11, in one pass over the entries of each schedule.
ghost use Rattle.std.specs.Prelude.{true, ◌≡◌, ◌+◌, ◌*◌, ◌<◌, ◌≤◌, length};
ghost use Rattle.words.specs.Words.{word};
ghost use Rattle.torus.specs.Inner.Paths.{wires_per_node};
ghost use Rattle.sheet.specs.Sheet.{schedules, nodes, period};
ghost use Rattle.sheet.specs.Rules.{rule7, rule8, rule9, rule10, rule11};
ghost use Rattle.clash.specs.Inner.Table.{Free};
ghost use Rattle.accept.specs.Inner.Placing.{row_words, Schedulable, ScheduleKept, KeptAll};

use super::walks::place_entry;
use super::working::{find_ends, find_neighbours, longest_period};
use sheet::{Circuits, Entry, Frame};

// The entries of schedule j, each in order behind the one before, in time, and along a route whose wires are free. The loop counts words and not
// entries, which leaves it a register more.
fn place_entries(table: &mut [u32], near: &[u32], frame: Frame, ends: &[u32], j: u32) -> bool
    requires { (Schedulable (length table.old) near.now frame.words.now ends.now j) × (9 ≤ period frame.words.now j) × (period frame.words.now j ≤ 1024) × (Free table.old) }
    ensures long { length table.new ≡ length table.old }
    ensures kept { result ≡ true → ScheduleKept frame.entry.words.now j }
{
    let circuits = sheet::circuits_of(frame.words);
    let long = sheet::is_long(frame.words);
    let period = frame.schedule_period(j);
    let entries = frame.entries(j);
    let stride = ((period / 32) as usize) + 2;
    let mut least: u32 = 0;
    let mut at = 0;
    while at < entries.len() {
        let e = Entry::at(entries, at / 4);
        if !e.fits(circuits, period) {
            return false;
        }
        let key = e.offset * 64 + e.circuit;
        if key < least {
            return false;
        }
        let both = ends[e.circuit as usize];
        if period + 2 < e.offset + e.size - 1 + both / 65536 {
            return false;
        }
        if !place_entry(table, near, frame.words, long, both, stride, e) {
            return false;
        }
        least = key + 1;
        at += 4;
    }
    true
}

// The numbers 7 to 11 at schedule j, in a free table.
fn keeps_schedule(table: &mut [u32], near: &[u32], frame: Frame, ends: &[u32], j: u32) -> bool
    requires { (Schedulable (length table.old) near.now frame.words.now ends.now j) × (Free table.old) }
    ensures long { length table.new ≡ length table.old }
    ensures kept { result ≡ true → ScheduleKept frame.entry.words.now j }
{
    words::is_between(9, 1024, frame.schedule_period(j))
        && place_entries(table, near, frame, ends, j)
}

// The numbers 7 to 11 at all schedules, in a free table with room for each. The first is called apart from those behind it: a function with one
// caller is put into it, and then the loop over its entries has too few registers.
fn schedules_kept(table: &mut [u32], near: &[u32], frame: Frame, ends: &[u32]) -> bool
    requires { ((j : _) → j < schedules frame.words.now → Schedulable (length table.old) near.now frame.words.now ends.now j) × (Free table.old) × (0 < schedules frame.words.now) }
    ensures { result ≡ true → KeptAll frame.entry.words.now (schedules frame.entry.words.now) }
{
    if !keeps_schedule(table, near, frame, ends, 0) {
        return false;
    }
    for j in 1..sheet::schedules_of(frame.words) {
        table.fill(0);
        if !keeps_schedule(table, near, frame, ends, j) {
            return false;
        }
    }
    true
}

// The same, with what is worked out of the sheet once; keeps_schedules has chosen the tables.
fn kept_in(table: &mut [u32], near: &mut [u32], circuits: Circuits) -> bool
    requires { (nodes circuits.frame.words.now * wires_per_node ≤ length near.old) × (Free table.old) × ((j : _) → j < schedules circuits.frame.words.now → nodes circuits.frame.words.now * wires_per_node * row_words (period circuits.frame.words.now j) ≤ length table.old) }
    ensures { result ≡ true → KeptAll circuits.entry.frame.words.now (schedules circuits.entry.frame.words.now) }
{
    let mut ends = [0u32; 64];
    find_ends(circuits, &mut ends);
    find_neighbours(circuits.frame.grid(), near);
    schedules_kept(table, near, circuits.frame, &ends)
}

// The same in tables of so many words; making zeros is a good part of the time of small sheets.
fn kept_in_tables<const WORDS: usize, const WIRES: usize>(circuits: Circuits) -> bool
    requires { (WORDS ≤ 3264) × (nodes circuits.frame.words.now * wires_per_node ≤ WIRES) × (WIRES ≤ 96) × ((j : _) → j < schedules circuits.frame.words.now → nodes circuits.frame.words.now * wires_per_node * row_words (period circuits.frame.words.now j) ≤ WORDS) }
    ensures { result ≡ true → KeptAll circuits.entry.frame.words.now (schedules circuits.entry.frame.words.now) }
{
    let mut table = [0u32; WORDS];
    let mut near = [0u32; WIRES];
    kept_in(&mut table, &mut near, circuits)
}

// The numbers 7 to 11, in tables that are large enough: the largest sheets have 96 wires with 34 words each.
pub fn keeps_schedules(circuits: Circuits) -> bool
    ensures { result ≡ true → KeptAll circuits.entry.frame.words.now (schedules circuits.entry.frame.words.now) }
{
    let longest = longest_period(circuits.frame);
    if 1024 < longest {
        return false;
    }
    let need = circuits.frame.nodes() * torus::WIRES_PER_NODE * (longest / 32 + 2);
    match need {
        0..=64 => kept_in_tables::<64, 32>(circuits),
        65..=512 => kept_in_tables::<512, 96>(circuits),
        513..=1152 => kept_in_tables::<1152, 96>(circuits),
        _ => kept_in_tables::<3264, 96>(circuits),
    }
}
