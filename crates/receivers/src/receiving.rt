// The nodes' receive units: whether a word strays (number 20), and their registers, landings and memories after a cycle.
ghost use Rattle.std.specs.Prelude.{◌≡◌, ◌+◌, ◌*◌, ◌<◌, ◌≤◌, [], length};
ghost use Rattle.words.specs.Tests.{any};
ghost use Rattle.sheet.specs.Sheet.{nodes as nodes_of};
ghost use Rattle.occupancy.specs.Inner.Occupancy.{bit_at};
ghost use Rattle.network.specs.Registers.{sheet_in, room as room_of, moving_words, receive_mark, landing_mark, landing_word};
ghost use Rattle.network.specs.Inner.Machine.{memory_mark, memory_word, strays_in, next_receive_mark, next_receive_kind, next_receive_address, next_landing_mark, next_in_row, next_memory};
ghost use Rattle.network.specs.Inner.Stages.{stage};
ghost use Rattle.network.specs.Inner.Quiet.{unlanded};
ghost use Rattle.receivers.specs.Inner.Required.{Counted, Receivable, LandingFits};
ghost use Rattle.receivers.specs.Inner.Written.{landing_put, receive_put, memory_put};

use network::{
    LANDING_ADDRESS, LANDING_ADDRESSES, LANDING_KIND, LANDING_KINDS, LANDING_MARK, LANDING_MARKS,
    LANDING_WORD, LANDING_WORDS, MEMORY_OUTPUT, OUT_MARK, OUT_WORD, OUTPUTS, RECEIVE_ADDRESS,
    RECEIVE_ADDRESSES, RECEIVE_KIND, RECEIVE_KINDS, RECEIVE_MARK, put_reg, reg,
};
use packet::Header;

// The mark on a node's memory output. The loops over the nodes stay below 16, here and below.
fn memory_mark(s: &[u32], node: u32) -> u32
    requires { node < 16 }
    ensures { result ≡ memory_mark s.now node }
{
    reg(s, OUT_MARK, node * OUTPUTS + MEMORY_OUTPUT)
}

// The word beside it.
fn memory_word(s: &[u32], node: u32) -> u32
    requires { node < 16 }
    ensures { result ≡ memory_word s.now node }
{
    reg(s, OUT_WORD, node * OUTPUTS + MEMORY_OUTPUT)
}

// A payload word strays: no packet is arriving, or its address lies past the node's memory. has_stray_among hands on the sheet's room.
fn does_stray(s: &[u32], node: u32, room: u32) -> bool
    requires { (node < 16) × (room ≡ room_of s.now) }
    ensures { result ≡ strays_in s.now node }
{
    if memory_mark(s, node) < 2 {
        return false;
    }
    reg(s, RECEIVE_MARK, node) == 0 || room <= reg(s, RECEIVE_ADDRESS, node)
}

// A word strays at some node, of which those beside the mask have nothing on their memory output. The cycle calls it on a sound state, whose
// sheet passes, with the sheet's numbers.
pub fn has_stray_among(s: &[u32], nodes: u32, room: u32, outs: u64) -> bool
    requires { (Counted s.now nodes room) × ((node : _) → node < nodes → bit_at outs node ≡ 0 → memory_mark s.now node ≡ 0) }
    ensures { result ≡ any (nodes_of (sheet_in s.now)) (strays_in s.now) }
{
    for node in occupancy::places(outs, nodes) {
        if does_stray(s, node, room) {
            return true;
        }
    }
    false
}

// A word strays at some node. No crate calls it now: the cycle calls has_stray_among. Whoever does so on a sound state, whose sheet passes,
// with the sheet's numbers, meets the requires.
pub fn has_stray(s: &[u32], nodes: u32, room: u32) -> bool
    requires { Counted s.now nodes room }
    ensures { result ≡ any (nodes_of (sheet_in s.now)) (strays_in s.now) }
{
    has_stray_among(s, nodes, room, network::ALL_NODES)
}

// What a receive unit holds.
#[derive(Clone, Copy)]
struct Receiver {
    mark: u32,
    kind: u32,
    address: u32,
}

// The receive unit after a cycle: a header begins a packet and gives its kind and address, each payload word counts the address on, and the
// packet's last drops the mark. No word strays, so the address cannot wrap.
fn next_receiver(s: &[u32], node: u32, room: u32) -> Receiver
    requires { LandingFits s.now node room }
    ensures mark { result.mark ≡ next_receive_mark s.now node }
    ensures kind { result.kind ≡ next_receive_kind s.now node }
    ensures address { result.address ≡ next_receive_address s.now node }
{
    let word_mark = memory_mark(s, node);
    if word_mark == 1 {
        let header = Header(memory_word(s, node));
        return Receiver {
            mark: 1,
            kind: header.kind(),
            address: header.address(),
        };
    }
    let mark = reg(s, RECEIVE_MARK, node);
    let kind = reg(s, RECEIVE_KIND, node);
    let address = reg(s, RECEIVE_ADDRESS, node);
    match word_mark {
        0 => Receiver {
            mark,
            kind,
            address,
        },
        2 => Receiver {
            mark,
            kind,
            address: address + 1,
        },
        _ => Receiver {
            mark: 0,
            kind,
            address: address + 1,
        },
    }
}

// Whether a word lands: a payload word does.
fn next_landing_mark(s: &[u32], node: u32) -> u32
    requires { node < 16 }
    ensures { result ≡ next_landing_mark s.now node }
{
    u32::from(memory_mark(s, node) >= 2)
}

// Stores a payload word at the receive unit's address; the place is reckoned in 64 bits, so that it cannot wrap.
fn put_memory(s: &[u32], m: &mut [u32], node: u32, room: u32)
    requires { node < 16 }
    ensures { m.new ≡ memory_put s.now m.old node room }
{
    if memory_mark(s, node) < 2 {
        return;
    }
    let address = reg(s, RECEIVE_ADDRESS, node) as usize;
    words::put(
        m,
        (node as usize) * (room as usize) + address,
        memory_word(s, node),
    );
}

// Sets the four registers of a node's stored landing. All is read before; by name, here and below, since a loop over rows is no plainer.
fn put_landing(s: &mut [u32], node: u32)
    requires { node < 16 }
    ensures { s.new ≡ landing_put s.old node }
{
    let mark = next_landing_mark(s, node);
    let kind = reg(s, RECEIVE_KIND, node);
    let address = reg(s, RECEIVE_ADDRESS, node);
    let word = memory_word(s, node);
    put_reg(s, LANDING_MARK, node, mark);
    put_reg(s, LANDING_KIND, node, kind);
    put_reg(s, LANDING_ADDRESS, node, address);
    put_reg(s, LANDING_WORD, node, word);
}

// Sets the three registers of a node's receive unit.
fn put_receive(s: &mut [u32], node: u32, room: u32)
    requires { LandingFits s.old node room }
    ensures { s.new ≡ receive_put s.old node }
{
    let next = next_receiver(s, node, room);
    put_reg(s, RECEIVE_MARK, node, next.mark);
    put_reg(s, RECEIVE_KIND, node, next.kind);
    put_reg(s, RECEIVE_ADDRESS, node, next.address);
}

// Steps one node: its landing is put before its receive unit goes on. Where its memory output is empty, as most are, the receive unit stays.
fn step_receiver(s: &mut [u32], m: &mut [u32], node: u32, room: u32)
    requires { LandingFits s.old node room }
    ensures state { s.new ≡ receive_put (landing_put s.old node) node }
    ensures memory { m.new ≡ memory_put s.old m.old node room }
{
    if memory_mark(s, node) == 0 {
        put_landing(s, node);
        return;
    }
    put_memory(s, m, node, room);
    put_landing(s, node);
    put_receive(s, node, room);
}

// Stores that nothing landed at the first nodes.
pub fn clear_landings(s: &mut [u32], nodes: u32)
    requires { (nodes ≤ 16) × (moving_words ≤ length s.old) }
    ensures { s.new ≡ stage landing_mark landing_word nodes (unlanded s.old) s.old }
{
    for node in 0..nodes as usize {
        let kind = s[RECEIVE_KINDS + node];
        let address = s[RECEIVE_ADDRESSES + node];
        s[LANDING_MARKS + node] = 0;
        s[LANDING_KINDS + node] = kind;
        s[LANDING_ADDRESSES + node] = address;
        s[LANDING_WORDS + node] = 0;
    }
}

// The nodes' rows and the memories after a cycle, in place. The cycle calls it once number 20 is excluded. At first nothing landed anywhere;
// then the nodes that may have something on their memory output are stepped. The test of the length is never met: it lets a compiler leave
// out one at each access.
pub fn step_receivers_among(s: &mut [u32], m: &mut [u32], nodes: u32, room: u32, outs: u64)
    requires { (Receivable s.old m.old nodes room) × ((node : _) → node < nodes → bit_at outs node ≡ 0 → (memory_mark s.old node ≡ 0) × (memory_word s.old node ≡ 0)) }
    ensures state { s.new ≡ stage receive_mark landing_word (nodes_of (sheet_in s.old)) (next_in_row s.old []) s.old }
    ensures memory { m.new ≡ next_memory s.old m.old }
{
    if s.len() < network::MOVING_WORDS {
        return;
    }
    clear_landings(s, nodes);
    for node in occupancy::places(outs, nodes) {
        step_receiver(s, m, node, room);
    }
}

// The nodes' rows and the memories after a cycle, in place, whatever there is at the nodes. No crate calls it now: the cycle calls
// step_receivers_among. Whoever does so on a sound state, once number 20 is excluded, meets the requires.
pub fn step_receivers(s: &mut [u32], m: &mut [u32], nodes: u32, room: u32)
    requires { Receivable s.old m.old nodes room }
    ensures state { s.new ≡ stage receive_mark landing_word (nodes_of (sheet_in s.old)) (next_in_row s.old []) s.old }
    ensures memory { m.new ≡ next_memory s.old m.old }
{
    step_receivers_among(s, m, nodes, room, network::ALL_NODES);
}
