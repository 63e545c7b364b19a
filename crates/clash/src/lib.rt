// Number 11: no two entries of one schedule occupy one wire in one cycle. A table has a place for each wire in each cycle, so
// the test is linear in the wires' use.
#![tactic(auto)]

ghost use Rattle.std.specs.Prelude.{◌≡◌, true, ◌+◌, ◌*◌, ◌<◌, ◌≤◌, length};
ghost use Rattle.torus.specs.Inner.Grid.{InGrid};
ghost use Rattle.torus.specs.Inner.Paths.{path_of};
ghost use Rattle.torus.specs.Route.{route_from};
ghost use Rattle.sheet.specs.Sheet.{columns, rows, is_long, schedules, period};
ghost use Rattle.sheet.specs.Rules.{rule11_at, rule11};
ghost use Rattle.sheet.specs.Inner.Passed.{Routed};
ghost use Rattle.occupancy.specs.Inner.Occupancy.{any_taken, Takes};
ghost use Rattle.clash.specs.Inner.Table.{places, entry_places, Held, Free, TakenOrKept, Placeable, HoldsAllWires};

use sheet::{Circuit, Entry, Frame};
use torus::Path;

// The first place of a wire that a packet occupies, in a table with so many cycles a wire.
fn place_of(wire: u32, delay: u32, stride: usize, cycle: usize) -> usize
    requires { (stride ≤ 65536) × (cycle ≤ 65536) }
    ensures { result ≡ wire * stride + (cycle + delay) }
{
    (wire as usize) * stride + (cycle + (delay as usize))
}

// A packet in a table with so many cycles a wire: the wires of its route and their delays, in the first `count` places of the two lists, the cycle
// that it begins in, and its words.
#[derive(Clone, Copy)]
struct Packet {
    wires: [u32; 9],
    delays: [u32; 9],
    count: usize,
    stride: usize,
    cycle: usize,
    size: u32,
}

impl Packet {
    // One of its places is taken.
    fn is_taken(&self, table: &[u32]) -> bool
        requires { Held (length table.now) self.now.wires self.now.delays self.now.count self.now.stride self.now.cycle self.now.size }
        ensures { result ≡ any_taken table.now (places self.now.wires self.now.delays self.now.stride self.now.cycle self.now.size 0 self.now.count) }
    {
        for i in 0..self.count {
            let place = place_of(self.wires[i], self.delays[i], self.stride, self.cycle);
            if occupancy::run_taken(table, place, self.size) {
                return true;
            }
        }
        false
    }

    // Takes its places.
    fn take(&self, table: &mut [u32])
        requires { Held (length table.old) self.now.wires self.now.delays self.now.count self.now.stride self.now.cycle self.now.size }
        ensures { Takes table.old table.new (places self.now.wires self.now.delays self.now.stride self.now.cycle self.now.size 0 self.now.count) }
    {
        for i in 0..self.count {
            let place = place_of(self.wires[i], self.delays[i], self.stride, self.cycle);
            occupancy::take_run(table, place, self.size);
        }
    }
}

// Takes the places that an entry occupies, unless one of them is taken: whether it did.
fn place_entry(table: &mut [u32], frame: Frame, e: Entry, stride: usize) -> bool
    requires { Placeable (length table.old) frame.words.now e stride }
    ensures { TakenOrKept table.old table.new (entry_places stride frame.entry.words.now e) result }
{
    let circuit = Circuit::at(frame.words, e.circuit);
    let Some(path) = routes::path_from(frame, circuit.read.node, e.route) else {
        return false;
    };
    let wires = path.wires;
    let delays = path.delays;
    let packet = Packet {
        wires,
        delays,
        count: (path.hops + 2) as usize,
        stride,
        cycle: e.offset as usize,
        size: e.size,
    };
    if packet.is_taken(table) {
        return false;
    }
    packet.take(table);
    true
}

// A sheet of which the rules 1 to 4, 7, 9 and 10 are kept.
#[derive(Clone, Copy)]
pub struct RoutedSheet<'a> {
    pub frame: Frame<'a>,
    pub ghost routed: { Routed frame.words.now },
}

impl RoutedSheet<'_> {
    // Number 11 at schedule j, in a free table. That it is free is asked and no field of a type, since the first packet that is taken ends it.
    fn entries_apart(self, table: &mut [u32], j: u32) -> bool
        requires { (j < schedules self.frame.words.now) × (HoldsAllWires (length table.old) self.frame.words.now (period self.frame.words.now j + 6)) × (Free table.old) }
        ensures { result ≡ rule11_at self.entry.frame.words.now j }
    {
        let stride = (self.frame.schedule_period(j) as usize) + 6;
        let entries = self.frame.entries(j);
        for i in 0..entries.len() / 4 {
            if !place_entry(table, self.frame, Entry::at(entries, i), stride) {
                return false;
            }
        }
        true
    }

    // Number 11 at schedule j, in a table of so many words.
    fn apart_in<const WORDS: usize>(self, j: u32) -> bool
        requires { (j < schedules self.frame.words.now) × (HoldsAllWires WORDS self.frame.words.now (period self.frame.words.now j + 6)) × (WORDS ≤ 3091) }
        ensures { result ≡ rule11_at self.entry.frame.words.now j }
    {
        let mut table = [0u32; WORDS];
        self.entries_apart(&mut table, j)
    }

    // Number 11 at schedule j: in a table of 1,024 places, which a small sheet needs no more than, of 16,384, or for the largest sheets, 96 wires in
    // 1,030 cycles.
    fn schedule_apart(self, j: u32) -> bool
        requires { j < schedules self.frame.words.now }
        ensures { result ≡ rule11_at self.entry.frame.words.now j }
    {
        let cycles = self.frame.schedule_period(j) + 6;
        let places = self.frame.nodes() * torus::WIRES_PER_NODE * cycles;
        match places {
            0..=1024 => self.apart_in::<33>(j),
            1025..=16384 => self.apart_in::<513>(j),
            _ => self.apart_in::<3091>(j),
        }
    }

    // Number 11: no two entries of one schedule occupy one wire in one cycle.
    pub fn keeps_rule11(self) -> bool
        ensures { result ≡ rule11 self.entry.frame.words.now }
    {
        (0..sheet::schedules_of(self.frame.words)).all(|j| self.schedule_apart(j))
    }
}
