// Where something is, looked for in all registers, for a cycle that nothing is known of.
#![tactic(auto)]

ghost use Rattle.std.specs.Prelude.{true, ◌≡◌, ℕ, ◌+◌, ◌*◌, ◌/◌, ◌<◌, ◌≤◌, length};
ghost use Rattle.words.specs.Words.{word as word_at};
ghost use Rattle.sheet.specs.Inner.Passed.{Headed};
ghost use Rattle.occupancy.specs.Inner.Occupancy.{bit_at};
ghost use Rattle.network.specs.Registers.{reg as reg_of, sheet_in, moving_words, row_words, to_go_row};
ghost use Rattle.network.specs.Inner.Quiet.{empty_at};
ghost use Rattle.network.specs.Inner.Live.{Covered};

use network::{Live, ROW_WORDS};

// The words of the routers' rows, without the latches', joined by or at each place, so that the compiler takes several at once. A state that
// has passed 12 has the rows, here and below, and live_now lends the list.
fn join_rows(s: &[u32], places: u32, joined: &mut [u32])
    requires { (places ≤ row_words) × (moving_words ≤ length s.now) × (length joined.old ≡ row_words) }
    ensures { (k : ℕ) → k < places → word_at joined.new k ≡ 0 → empty_at s.now k ≡ true }
{
    for k in 0..places as usize {
        joined[k] = quiet::place_joined(s, k);
    }
}

// A node's mask where one of its five places is not 0, else none. The five are joined by or and tested once, with no early exit.
fn node_in(joined: &[u32], node: u32) -> u64
    requires { (node < 16) × (length joined.now ≡ row_words) }
    ensures { bit_at result node ≡ 0 → (k : ℕ) → k / 5 ≡ node → word_at joined.now k ≡ 0 }
{
    let k = node as usize * 5;
    if joined[k] | joined[k + 1] | joined[k + 2] | joined[k + 3] | joined[k + 4] == 0 {
        return 0;
    }
    occupancy::only(node)
}

// The mask of the nodes of which a place is not 0.
fn nodes_in(joined: &[u32], nodes: u32) -> u64
    requires { (nodes ≤ 16) × (length joined.now ≡ row_words) }
    ensures { (k : ℕ) → k < nodes * 5 → bit_at result (k / 5) ≡ 0 → word_at joined.now k ≡ 0 }
{
    let mut mask: u64 = 0;
    for node in 0..nodes {
        mask |= node_in(joined, node);
    }
    mask
}

// A circuit's mask where it is amid a packet, else none.
fn circuit_in(s: &[u32], c: u32) -> u64
    requires { c < 64 }
    ensures { bit_at result c ≡ 0 → reg_of s.now to_go_row c ≡ 0 }
{
    if network::reg(s, network::TO_GO_ROW, c) == 0 {
        return 0;
    }
    occupancy::only(c)
}

// The mask of the circuits that are amid a packet.
fn sending_in(s: &[u32], count: u32) -> u64
    requires { (count ≤ 64) × (moving_words ≤ length s.now) }
    ensures { (c : ℕ) → c < count → bit_at result c ≡ 0 → reg_of s.now to_go_row c ≡ 0 }
{
    // A state that passed has the rows; behind this test the compiler drops one at each read.
    if s.len() < network::MOVING_WORDS {
        return 0;
    }
    let mut mask: u64 = 0;
    for c in 0..count {
        mask |= circuit_in(s, c);
    }
    mask
}

// Where something may be: one mask serves all rows of the routers, and a word may have landed at any node.
pub fn live_now(s: &[u32]) -> Live
    requires { (Headed (sheet_in s.now)) × (moving_words ≤ length s.now) }
    ensures { Covered s.now result }
{
    let z = network::sheet_of(s);
    let nodes = sheet::nodes_of(z);
    let mut joined = [0u32; ROW_WORDS];
    join_rows(s, nodes * 5, &mut joined);
    let mask = nodes_in(&joined, nodes);
    let sending = sending_in(s, sheet::circuits_of(z));
    Live {
        links: mask,
        heads: mask,
        outs: mask,
        extras: mask,
        landed: network::ALL_NODES,
        sending,
    }
}
