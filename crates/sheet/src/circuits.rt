// The circuits of a sheet, and the rules 4 to 6.
ghost use Rattle.std.specs.Prelude.{◌≡◌, true, ◌+◌, ◌-◌, ◌*◌, ◌<◌};
ghost use Rattle.words.specs.Tests.{all};
ghost use Rattle.sheet.specs.Sheet.{circuits, circuit_at};
ghost use Rattle.sheet.specs.Rules.{region_fits, circuit_fits, circuit_precedes, precedes, apart, receive_apart, rule4, rule5, rule6};
ghost use Rattle.sheet.specs.Inner.Passed.{Framed};

use super::frame::Frame;
use super::head::{circuits_of, memory_of};

// A region of a node's memory.
#[derive(Clone, Copy)]
pub struct Region {
    pub node: u32,
    pub offset: u32,
    pub size: u32,
}

// A circuit: it reads at its source and is received at its destination.
#[derive(Clone, Copy)]
pub struct Circuit {
    pub read: Region,
    pub receive: Region,
}

impl Region {
    // The region has a word and ends within the memory; the end is a sum of 64 bits, so that it cannot wrap.
    fn fits(self, memory: u32) -> bool
        ensures { result ≡ region_fits memory self }
    {
        self.size >= 1 && self.offset as u64 + self.size as u64 <= memory as u64
    }

    // The two regions share no word.
    pub fn is_apart(self, other: Region) -> bool
        requires { (self.offset + self.size < 65536) × (other.offset + other.size < 65536) }
        ensures { result ≡ apart self other }
    {
        self.node != other.node
            || self.offset + self.size <= other.offset
            || other.offset + other.size <= self.offset
    }
}

impl Circuit {
    // Circuit k of a sheet; a word past the sheet's end is 0.
    pub fn at(z: &[u32], k: u32) -> Circuit
        ensures { result ≡ circuit_at z.now k }
    {
        let at = 5 + 6 * (k as usize);
        Circuit {
            read: Region {
                node: words::get(z, at),
                offset: words::get(z, at + 2),
                size: words::get(z, at + 3),
            },
            receive: Region {
                node: words::get(z, at + 1),
                offset: words::get(z, at + 4),
                size: words::get(z, at + 5),
            },
        }
    }

    // Number 4 at one circuit.
    pub fn fits(self, nodes: u32, memory: u32) -> bool
        ensures { result ≡ circuit_fits nodes memory self }
    {
        self.read.node < nodes
            && self.receive.node < nodes
            && self.read.node != self.receive.node
            && self.read.fits(memory)
            && self.receive.fits(memory)
    }

    // Number 5 at one circuit and the next.
    fn is_before(self, next: Circuit) -> bool
        ensures { result ≡ circuit_precedes self next }
    {
        (self.receive.node, self.receive.offset) < (next.receive.node, next.receive.offset)
    }
}

impl Frame<'_> {
    // Number 4: each circuit joins two different nodes of the grid, and its two regions fit.
    pub fn keeps_rule4(self) -> bool
        ensures { result ≡ rule4 self.entry.words.now }
    {
        let nodes = self.nodes();
        let memory = memory_of(self.words);
        (0..circuits_of(self.words)).all(|k| Circuit::at(self.words, k).fits(nodes, memory))
    }

    // Number 5: the circuits strictly ascend by destination and receive offset.
    pub fn keeps_rule5(self) -> bool
        ensures { result ≡ rule5 self.entry.words.now }
    {
        let pairs = circuits_of(self.words).saturating_sub(1);
        (0..pairs).all(|k| Circuit::at(self.words, k).is_before(Circuit::at(self.words, k + 1)))
    }
}

// A sheet of which rule 4 is kept too: each circuit joins two nodes of the grid, and its regions fit.
#[derive(Clone, Copy)]
pub struct Circuits<'a> {
    pub frame: Frame<'a>,
    pub ghost fit: { rule4 frame.words.now ≡ true },
}

impl Circuits<'_> {
    // Number 6 at circuit j's receive region and circuit k: apart from k's read region, and from another k's receive region.
    fn pair_apart_by_regions(self, receive: Region, j: u32, k: u32) -> bool
        requires { (j < circuits self.frame.words.now) × (k < circuits self.frame.words.now) × (receive ≡ (circuit_at self.frame.words.now j).receive) }
        ensures { result ≡ receive_apart self.entry.frame.words.now j k }
    {
        let other = Circuit::at(self.frame.words, k);
        (j == k || receive.is_apart(other.receive)) && receive.is_apart(other.read)
    }

    // The same, first by the nodes: most pairs have none in common, which circuit k's first two words tell.
    fn pair_apart(self, receive: Region, j: u32, k: u32) -> bool
        requires { (j < circuits self.frame.words.now) × (k < circuits self.frame.words.now) × (receive ≡ (circuit_at self.frame.words.now j).receive) }
        ensures { result ≡ receive_apart self.entry.frame.words.now j k }
    {
        let at = 5 + 6 * (k as usize);
        if words::get(self.frame.words, at) != receive.node
            && words::get(self.frame.words, at + 1) != receive.node
        {
            return true;
        }
        self.pair_apart_by_regions(receive, j, k)
    }

    // Number 6 at circuit j's receive region.
    fn receive_apart(self, j: u32) -> bool
        requires { j < circuits self.frame.words.now }
        ensures { result ≡ all (circuits self.entry.frame.words.now) (receive_apart self.entry.frame.words.now j) }
    {
        let receive = Circuit::at(self.frame.words, j).receive;
        (0..circuits_of(self.frame.words)).all(|k| self.pair_apart(receive, j, k))
    }

    // Number 6: no receive region shares a word with another receive region or with a read region.
    pub fn keeps_rule6(self) -> bool
        ensures { result ≡ rule6 self.entry.frame.words.now }
    {
        (0..circuits_of(self.frame.words)).all(|j| self.receive_apart(j))
    }
}
