// The numbers 4 to 6. Receive regions are apart where each ends before the next begins, and a read region is held to those of its node alone.
ghost use Rattle.std.specs.Prelude.{true, ◌≡◌, ◌+◌, ◌<◌, ◌≤◌, length, set, replicate};
ghost use Rattle.words.specs.Tests.{◌=?◌};
ghost use Rattle.words.specs.Words.{word, pick};
ghost use Rattle.sheet.specs.Sheet.{circuits as circuit_count, circuit_at};
ghost use Rattle.sheet.specs.Rules.{apart, rule4, rule5, rule6};
ghost use Rattle.accept.specs.Inner.Arranged.{Ordered, ByNode};

use sheet::{Circuit, Circuits, Frame, Region};

// Circuit k, which lies within the sheet, so that none of its words has to be looked for past the end.
fn circuit_within(frame: Frame, k: u32) -> Circuit
    requires { k < circuit_count frame.words.now }
    ensures { result ≡ circuit_at frame.entry.words.now k }
{
    let z = frame.words;
    let at = 5 + 6 * (k as usize);
    Circuit {
        read: Region {
            node: z[at],
            offset: z[at + 2],
            size: z[at + 3],
        },
        receive: Region {
            node: z[at + 1],
            offset: z[at + 4],
            size: z[at + 5],
        },
    }
}

// Puts circuit k into the tables of the node that it is received at, behind the circuits before it.
fn list_circuit(from: &mut [u32], to: &mut [u32], node: usize, k: u32)
    requires { (node < length from.old) × (node < length to.old) × (k < 64) }
    ensures from { from.new ≡ pick (word to.old node =? 0) (set from.old node k) from.old }
    ensures to { to.new ≡ set to.old node (k + 1) }
{
    if to[node] == 0 {
        from[node] = k;
    }
    to[node] = k + 1;
}

// The number 4, and an order that 5 follows from, with the tables of the circuits by node; keeps_circuits lends zeros.
fn circuits_arranged(frame: Frame, from: &mut [u32], to: &mut [u32]) -> bool
    requires { (length from.old ≡ 16) × (to.old ≡ replicate 16 0) }
    ensures order { result ≡ true → Ordered frame.entry.words.now (circuit_count frame.entry.words.now) }
    ensures tables { result ≡ true → ByNode frame.entry.words.now from.new to.new (circuit_count frame.entry.words.now) }
{
    let nodes = frame.nodes();
    let memory = sheet::memory_of(frame.words);
    let mut end: u64 = 0;
    for k in 0..sheet::circuits_of(frame.words) {
        let circuit = circuit_within(frame, k);
        if !circuit.fits(nodes, memory) {
            return false;
        }
        let receive = circuit.receive;
        let key = (receive.node as u64) * 65536 + (receive.offset as u64);
        if key < end {
            return false;
        }
        end = key + (receive.size as u64);
        list_circuit(from, to, receive.node as usize, k);
    }
    true
}

// The read region of circuit k is apart from the receive regions of some circuits; reads_apart names those of its node.
fn read_apart(circuits: Circuits, k: u32, first: u32, last: u32) -> bool
    requires { (k < circuit_count circuits.frame.words.now) × (last ≤ circuit_count circuits.frame.words.now) }
    ensures { result ≡ true → (i : _) → first ≤ i → i < last → apart (circuit_at circuits.entry.frame.words.now i).receive (circuit_at circuits.entry.frame.words.now k).read ≡ true }
{
    let read = circuit_within(circuits.frame, k).read;
    for i in first..last {
        if !circuit_within(circuits.frame, i).receive.is_apart(read) {
            return false;
        }
    }
    true
}

// The number 6, with the tables of the circuits by node.
fn reads_apart(frame: Frame, from: &[u32], to: &[u32]) -> bool
    requires { (Ordered frame.words.now (circuit_count frame.words.now)) × (ByNode frame.words.now from.now to.now (circuit_count frame.words.now)) }
    ensures { result ≡ true → rule6 frame.entry.words.now ≡ true }
{
    for k in 0..sheet::circuits_of(frame.words) {
        let node = circuit_within(frame, k).read.node as usize;
        if !read_apart(Circuits { frame }, k, from[node], to[node]) {
            return false;
        }
    }
    true
}

// The numbers 4 to 6.
pub fn keeps_circuits(frame: Frame) -> bool
    ensures { result ≡ true → (rule4 frame.entry.words.now ≡ true) × (rule5 frame.entry.words.now ≡ true) × (rule6 frame.entry.words.now ≡ true) }
{
    let mut from = [0u32; 16];
    let mut to = [0u32; 16];
    circuits_arranged(frame, &mut from, &mut to) && reads_apart(frame, &from, &to)
}
