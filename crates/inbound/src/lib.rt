// Which circuits have words on their way, read from a state's wires (docs/STATE.md, document 02, L3).
#![tactic(auto)]

ghost use Rattle.std.specs.Prelude.{◌≡◌, ◌*◌, ◌/◌, ◌<◌};
ghost use Rattle.sheet.specs.Sheet.{nodes as nodes_of};
ghost use Rattle.sheet.specs.Inner.Passed.{Headed};
ghost use Rattle.network.specs.View.{ports};
ghost use Rattle.network.specs.Registers.{sheet_in};
ghost use Rattle.network.specs.Inbound.{in_region, bound_for, furthest, comes_into, link_inbound, head_inbound, out_inbound, extra_inbound, header_inbound, is_arriving, is_inbound};
ghost use Rattle.inbound.specs.Inner.Bound.{one_more};

use network::reg;
use packet::Header;
use sheet::{Circuit, Region};

// An address of a region; its end is a sum of 64 bits, so that it cannot wrap.
fn in_region(region: Region, address: u32) -> bool
    ensures { result ≡ in_region region address }
{
    region.offset <= address
        && u64::from(address) < u64::from(region.offset) + u64::from(region.size)
}

// A place of the routers' rows in a state's words s, beside the state's own sheet z, whose head has passed.
#[derive(Clone, Copy)]
struct Place<'a> {
    s: &'a [u32],
    z: &'a [u32],
    k: u32,
    ghost own: { z.now ≡ sheet_in s.now },
    ghost headed: { Headed z.now },
    ghost inside: { k < nodes_of z.now * ports },
}

impl Place<'_> {
    // The node to whose memory a header on an output of the place's node comes, if it comes to one. The outputs of its own registers and
    // of their headers meet the requires, here and below.
    fn bound_for(self, output: u32, word: u32) -> Option<u32>
        requires { output < ports }
        ensures { one_more result ≡ bound_for furthest self.entry.z.now (self.entry.k / ports) output word }
    {
        let grid = sheet::grid_of(self.z);
        let mut at = self.k / network::OUTPUTS;
        let mut by = output;
        let mut header = word;
        for _ in 0..torus::CODES + 1 {
            if by == network::MEMORY_OUTPUT {
                return Some(at);
            }
            at = grid.neighbour(at, by);
            by = network::output_for((by + 2) % 4, header);
            header = Header(header).shifted().0;
        }
        if by == network::MEMORY_OUTPUT {
            Some(at)
        } else {
            None
        }
    }

    // A header on an output of the place's node comes into a region; its address is tested first, since most headers are of other regions. The
    // place is handed over by value: lent, it would be written to memory at each place, also where there is no header.
    fn comes_into(self, region: Region, output: u32, word: u32) -> bool
        requires { output < ports }
        ensures { result ≡ comes_into self.entry.z.now region (self.entry.k / ports) output word }
    {
        in_region(region, Header(word).address())
            && self.bound_for(output, word) == Some(region.node)
    }

    // The link register holds a header that comes into the region.
    fn link_inbound(&self, region: Region) -> bool
        ensures { result ≡ link_inbound self.now.s.now region self.now.k }
    {
        if reg(self.s, network::LINK_MARK, self.k) != 1 {
            return false;
        }
        let word = reg(self.s, network::LINK_WORD, self.k);
        let output = network::output_for(self.k % network::OUTPUTS, word);
        self.comes_into(region, output, Header(word).shifted().0)
    }

    // The head register does, where an output is chosen for its header.
    fn head_inbound(&self, region: Region) -> bool
        ensures { result ≡ head_inbound self.now.s.now region self.now.k }
    {
        if reg(self.s, network::HEAD_MARK, self.k) != 1 {
            return false;
        }
        let choice = reg(self.s, network::CHOICE_ROW, self.k);
        (1..=network::OUTPUTS).contains(&choice)
            && self.comes_into(region, choice - 1, reg(self.s, network::HEAD_WORD, self.k))
    }

    // The out register does.
    fn out_inbound(&self, region: Region) -> bool
        ensures { result ≡ out_inbound self.now.s.now region self.now.k }
    {
        if reg(self.s, network::OUT_MARK, self.k) != 1 {
            return false;
        }
        let output = self.k % network::OUTPUTS;
        self.comes_into(region, output, reg(self.s, network::OUT_WORD, self.k))
    }

    // The extra register does, where the output's link has one.
    fn extra_inbound(&self, region: Region) -> bool
        ensures { result ≡ extra_inbound self.now.s.now region self.now.k }
    {
        if reg(self.s, network::EXTRA_MARK, self.k) != 1 {
            return false;
        }
        let output = self.k % network::OUTPUTS;
        network::has_extra(self.z, output)
            && self.comes_into(region, output, reg(self.s, network::EXTRA_WORD, self.k))
    }

    // A header at the place comes into the region. A place without headers costs the four reads of its marks.
    fn header_inbound(&self, region: Region) -> bool
        ensures { result ≡ header_inbound self.now.s.now region self.now.k }
    {
        self.link_inbound(region)
            || self.head_inbound(region)
            || self.out_inbound(region)
            || self.extra_inbound(region)
    }
}

// A receive unit's mark while a packet is arriving.
const ARRIVING: u32 = 1;

// A packet is arriving at the region's node, and the address of its next word lies in the region.
fn is_arriving(s: &[u32], region: Region) -> bool
    ensures { result ≡ is_arriving s.now region }
{
    reg(s, network::RECEIVE_MARK, region.node) == ARRIVING
        && in_region(region, reg(s, network::RECEIVE_ADDRESS, region.node))
}

// Words are on their way into a circuit's receive region. A start on a state that has passed 12 and 13 meets the requires.
pub fn is_inbound(s: &[u32], circuit: u32) -> bool
    requires { Headed (sheet_in s.now) }
    ensures { result ≡ is_inbound s.now circuit }
{
    let z = network::sheet_of(s);
    let region = Circuit::at(z, circuit).receive;
    is_arriving(s, region)
        || (0..sheet::nodes_of(z) * network::OUTPUTS).any(
            |k|
                requires { (z.now ≡ sheet_in s.now) × (Headed z.now) × (k < nodes_of z.now * ports) }
            { Place { s, z, k }.header_inbound(region) },
        )
}
