// A table of places that are taken or free: one bit a place, thirty-two places a word. Places in a row are tested and taken
// in the two words that can hold them, together.
#![tactic(auto)]

ghost use Rattle.std.specs.Prelude.{◌≡◌, ◌+◌, ◌-◌, ◌*◌, ◌/◌, ◌%◌, ◌<◌, ◌≤◌, length};
ghost use Rattle.std.specs.Iterator.{at_most};
ghost use Rattle.occupancy.specs.Inner.Occupancy.{bit_at, run, any_taken, window as window_of, slot_mask, take_run, TakenIfFree, NextTaken};
ghost use Rattle.occupancy.specs.Inner.Places.{PlaceGiven};

// The sixty-four places from word q on.
fn window(table: &[u32], q: usize) -> u64
    requires { q + 1 < length table.now }
    ensures { result ≡ window_of table.now q }
{
    (table[q] as u64) + (table[q + 1] as u64) * 4294967296
}

// Ones at so many places from a bit on. Whoever has a slot in its range meets the requires.
pub fn slot_mask(bit: u32, size: u32) -> u64
    requires { (bit < 32) × (size ≤ 16) }
    ensures { result ≡ slot_mask bit size }
{
    ((1u64 << size) - 1) << bit
}

// One of so many places from one on is taken. Whoever has placed a packet within the table meets the requires, here and below.
pub fn run_taken(table: &[u32], place: usize, size: u32) -> bool
    requires { (1 ≤ size) × (size ≤ 16) × (place + size + 32 ≤ 32 * length table.now) }
    ensures { result ≡ any_taken table.now (run size place) }
{
    let bit = (place % 32) as u32;
    (window(table, place / 32) & slot_mask(bit, size)) != 0
}

// Takes so many places from one on.
pub fn take_run(table: &mut [u32], place: usize, size: u32)
    requires { (1 ≤ size) × (size ≤ 16) × (place + size + 32 ≤ 32 * length table.old) }
    ensures { table.new ≡ take_run table.old place size }
{
    let q = place / 32;
    let bit = (place % 32) as u32;
    let both = window(table, q) | slot_mask(bit, size);
    table[q] = (both % 4294967296) as u32;
    table[q + 1] = (both / 4294967296) as u32;
}

// Takes the places of a mask among the sixty-four from word q on, unless one of them is taken: whether it did. Whoever has room for a wire's
// words meets the requires.
pub fn take_free(table: &mut [u32], q: usize, mask: u64) -> bool
    requires { q + 1 < length table.old }
    ensures { TakenIfFree table.old table.new q mask result }
{
    let before = window(table, q);
    if (before & mask) != 0 {
        return false;
    }
    let both = before | mask;
    table[q] = (both % 4294967296) as u32;
    table[q + 1] = (both / 4294967296) as u32;
    true
}

// The next taken place of a mask's sixty-four from one on, or one behind all where there is none: whoever goes through the taken places passes the
// others at once. Such a walk begins at 0 and goes on behind places that are there, so it meets the requires. No case has a branch of its
// own: of no digits all sixty-four are zeros, and from 64 on any answer is behind all.
pub fn next_taken(mask: u64, from: u32) -> u32
    requires { from ≤ 64 }
    ensures { NextTaken mask from result }
{
    let rest = mask >> (from % 64);
    from + u64::trailing_zeros(rest)
}

// A walk through the taken places of a mask below an end, in order; those before `from` are behind it.
#[derive(Clone, Copy)]
pub struct TakenPlaces {
    pub mask: u64,
    pub from: u32,
    pub end: u32,
    ghost inside: { (from ≤ end) × (end ≤ 64) },
}

// The taken places of a mask below an end. Whoever counts nodes or circuits meets the requires: there are at most 16 and 64 of them.
pub fn places(mask: u64, end: u32) -> TakenPlaces
    requires { end ≤ 64 }
    ensures mask { result.mask ≡ mask }
    ensures from { result.from ≡ 0 }
    ensures end { result.end ≡ end }
{
    TakenPlaces { mask, from: 0, end }
}

impl Iterator for TakenPlaces {
    type Item = u32;

    ghost next_gives = { λ s r t. (t.mask ≡ s.mask) × (t.end ≡ s.end) × PlaceGiven s.mask s.from s.end r t.from };

    ghost remaining = { λ s. at_most (s.end - s.from) };

    fn next(&mut self) -> Option<u32> {
        let place = next_taken(self.mask, self.from);
        if self.end <= place {
            return None;
        }
        self.from = place + 1;
        Some(place)
    }
}

// The mask with the one place.
pub fn only(place: u32) -> u64
    requires { place < 64 }
    ensures { bit_at result place ≡ 1 }
{
    1u64 << place
}
