// Number 26: each circuit has an entry in some schedule. A table has a mark for each circuit, so the test is linear in the entries.
ghost use Rattle.std.specs.Prelude.{◌≡◌, replicate};
ghost use Rattle.sheet.specs.Sheet.{schedules};
ghost use Rattle.sheet.specs.Rules.{rule26};
ghost use Rattle.sheet.specs.Inner.Passed.{Ranged};
ghost use Rattle.sheet.specs.Inner.Served.{Markable, marked_by, marks_of};

use super::entries::Entry;
use super::frame::entries_of;
use super::head::{circuits_of, schedules_of};

// Marks the circuits of a schedule's entries.
fn mark_circuits(entries: &[u32], marks: &mut [u32])
    requires { Markable entries.now marks.old }
    ensures { marks.new ≡ marked_by entries.now marks.old }
{
    for i in 0..entries.len() / 4 {
        marks[Entry::at(entries, i).circuit as usize] = 1;
    }
}

// Marks the circuits that some schedule serves, in 64 zeros that keeps_rule26 lends: marks handed back by value are copied.
fn mark_served(z: &[u32], marks: &mut [u32])
    requires { (Ranged z.now) × (marks.old ≡ replicate 64 0) }
    ensures { marks.new ≡ marks_of z.now (schedules z.now) }
{
    for j in 0..schedules_of(z) {
        mark_circuits(entries_of(z, j), marks);
    }
}

// Number 26: each circuit has an entry in some schedule. The checker and load call it behind 1 to 11, and so meet the
// requires.
pub fn keeps_rule26(z: &[u32]) -> bool
    requires { Ranged z.now }
    ensures { result ≡ rule26 z.now }
{
    let mut marks = [0u32; 64];
    mark_served(z, &mut marks);
    // No closure here: it would borrow the marks, and the compiler would copy them.
    for c in 0..circuits_of(z) {
        if marks[c as usize] == 0 {
            return false;
        }
    }
    true
}
