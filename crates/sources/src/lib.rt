// The circuits' senders: which slots begin in a cycle, what the sources put on their wires, and the senders' registers afterwards.
#![tactic(auto)]

ghost use Rattle.std.specs.Prelude.{◌≡◌, true, false, not, [], ℕ, ◌+◌, ◌*◌, ◌<◌, ◌≤◌, IfOk};
ghost use Rattle.words.specs.Tests.{any, ◌and◌, ◌or◌, ◌≤?◌, ◌=?◌};
ghost use Rattle.words.specs.Numbers.{unless};
ghost use Rattle.words.specs.Words.{word as word_at, tab};
ghost use Rattle.refusal.specs.Numbers.{number_of};
ghost use Rattle.occupancy.specs.Inner.Occupancy.{bit_at};
ghost use Rattle.packet.specs.Header.{header_word};
ghost use Rattle.sheet.specs.Sheet.{circuits, schedules, nodes, entries_of};
ghost use Rattle.sheet.specs.Inner.Passed.{Framed};
ghost use Rattle.sheet.specs.Rules.{rule8};
ghost use Rattle.sheet.specs.Slots.{slot_route, source_of};
ghost use Rattle.network.specs.Registers.{reg as reg_of, sheet_in, room, clock_row, cycle_place, in_force_place, left_row, read_row, write_row, kind_row, to_go_row};
ghost use Rattle.network.specs.Inner.Machine.{slot_in, move_in, sent_mark, sent_word, source_mark, source_word, crowds_in, reopens_in, next_in_row};
ghost use Rattle.network.specs.Inner.Paired.{Paired, Sendable};
ghost use Rattle.network.specs.Inner.Stages.{stage};
ghost use Rattle.sources.specs.Inner.Slots.{slot_table, slot_put, BegunBefore};
ghost use Rattle.sources.specs.Inner.Acting.{opens_in, Acting};
ghost use Rattle.sources.specs.Inner.Wires.{marks_before, words_before, put_free, crowds_at};
ghost use Rattle.sources.specs.Inner.Steps.{Sending, Steppable, send_word, sender_put};

use network::{put_reg, reg};
use packet::Header;
use refusal::Refusal;
use sheet::{Circuit, Entry};

// Puts an entry's number into the table of slots at its circuit, where it begins in the cycle.
fn put_slot(entry: Entry, number: u32, cycle: u32, slots: &mut [u32])
    ensures { slots.new ≡ slot_put entry number cycle slots.old }
{
    if entry.offset == cycle {
        words::put(slots, entry.circuit as usize, number);
    }
}

// So many entries of schedule j that begin before the cycle, counted in steps of sixteen: by rule 8 the last of a step begins last. Whoever
// has a sound state's schedule in force meets the requires.
pub fn entries_passed(z: &[u32], j: u32, entries: &[u32], cycle: u32) -> u32
    requires { (Framed z.now) × (rule8 z.now ≡ true) × (j < schedules z.now) × (entries.now ≡ entries_of z.now j) }
    ensures { BegunBefore entries.now cycle result }
{
    let count = entries.len() / 4;
    let steps = (count / 16) as u32;
    for step in 0..steps {
        if cycle <= Entry::at(entries, step as usize * 16 + 15).offset {
            return step * 16;
        }
    }
    steps * 16
}

// The slots that begin in this cycle, by circuit: one more than the entry's number, 0 where none begins; and whether one begins at all. By
// rule 8 no entry behind a later one begins. The call that found the state sound lends its sheet, here and below, and 64 zeros.
pub fn slots_now(s: &[u32], z: &[u32], slots: &mut [u32]) -> bool
    requires { (Paired s.now z.now) × (rule8 z.now ≡ true) × (slots.old ≡ tab 64 (λ (c : ℕ). 0)) }
    ensures table { slots.new ≡ slot_table s.now }
    ensures none { result ≡ false → slots.new ≡ tab 64 (λ (c : ℕ). 0) }
{
    let cycle = reg(s, network::CLOCK_ROW, network::CYCLE_PLACE);
    let schedule = reg(s, network::CLOCK_ROW, network::IN_FORCE_PLACE);
    let entries = sheet::entries_of(z, schedule);
    let count = (entries.len() / 4) as u32;
    let mut begins = false;
    for i in entries_passed(z, schedule, entries, cycle)..count {
        let entry = Entry::at(entries, i as usize);
        if cycle < entry.offset {
            return begins;
        }
        begins |= entry.offset == cycle;
        put_slot(entry, i + 1, cycle, slots);
    }
    begins
}

// Puts a mark and a word on a node's source wire, unless it is taken: whether it is.
fn put_on_wire(node: u32, mark: u32, word: u32, marks: &mut [u32], cells: &mut [u32]) -> bool
    ensures taken { result ≡ (1 ≤? word_at marks.old node) }
    ensures marks { marks.new ≡ put_free marks.old node mark marks.old }
    ensures cells { cells.new ≡ put_free marks.old node word cells.old }
{
    if words::get(marks, node as usize) != 0 {
        return true;
    }
    words::put(marks, node as usize, mark);
    words::put(cells, node as usize, word);
    false
}

// A circuit's sender in a cycle: the state, its own sheet, the slots that begin in the cycle, by circuit, and the circuit. The call that
// found the state sound lends the words.
#[derive(Clone, Copy)]
struct Sender<'a> {
    state: &'a [u32],
    sheet: &'a [u32],
    slots: &'a [u32],
    circuit: u32,
    ghost paired: { Paired state.now sheet.now },
    ghost table: { slots.now ≡ slot_table state.now },
    ghost inside: { circuit < circuits sheet.now },
}

impl<'a> Sender<'a> {
    // The entry of the slot that begins in this cycle, all zeros where none does.
    fn slot(&self) -> Entry
        ensures size { result.size ≡ slot_in self.now.state.now self.now.circuit }
        ensures route { result.route ≡ slot_route (sheet_in self.now.state.now) (reg_of self.now.state.now clock_row in_force_place) (reg_of self.now.state.now clock_row cycle_place) self.now.circuit }
    {
        let found = words::get(self.slots, self.circuit as usize);
        if found == 0 {
            return Entry {
                offset: 0,
                size: 0,
                circuit: 0,
                route: 0,
            };
        }
        let schedule = reg(self.state, network::CLOCK_ROW, network::IN_FORCE_PLACE);
        Entry::at(
            sheet::entries_of(self.sheet, schedule),
            (found - 1) as usize,
        )
    }

    // It opens a packet in this cycle: it has words left, and a slot of it begins.
    fn opens(&self) -> bool
        ensures { result ≡ opens_in self.now.state.now self.now.circuit }
    {
        reg(self.state, network::LEFT_ROW, self.circuit) != 0 && 1 <= self.slot().size
    }

    // Its circuit's mask where it opens a packet in this cycle, else none.
    fn opening(&self) -> u64
        ensures { bit_at result self.now.circuit ≡ 0 → opens_in self.now.state.now self.now.circuit ≡ false }
    {
        if words::get(self.slots, self.circuit as usize) != 0 && self.opens() {
            occupancy::only(self.circuit)
        } else {
            0
        }
    }

    // The mark that it puts on its source's wire.
    fn mark(&self) -> u32
        ensures { result ≡ sent_mark self.now.state.now self.now.circuit }
    {
        if self.opens() {
            return 1;
        }
        match reg(self.state, network::TO_GO_ROW, self.circuit) {
            0 => 0,
            1 => 3,
            _ => 2,
        }
    }

    // It opens a packet, as its mark tells, while words of another are to go.
    fn reopens(&self, mark: u32) -> bool
        requires { mark ≡ sent_mark self.now.state.now self.now.circuit }
        ensures { result ≡ reopens_in self.now.state.now self.now.circuit }
    {
        mark == 1 && 1 <= reg(self.state, network::TO_GO_ROW, self.circuit)
    }

    // The header of the packet that it opens in this cycle; only a circuit that has words left opens one. A sound state's transfers have kinds
    // and addresses that fit a header.
    fn header(&self) -> u32
        requires { (Sendable self.now.state.now self.now.sheet.now) × (1 ≤ reg_of self.now.state.now left_row self.now.circuit) }
        ensures { result ≡ header_word (reg_of self.now.state.now kind_row self.now.circuit) (reg_of self.now.state.now write_row self.now.circuit) (slot_route (sheet_in self.now.state.now) (reg_of self.now.state.now clock_row in_force_place) (reg_of self.now.state.now clock_row cycle_place) self.now.circuit) }
    {
        let kind = reg(self.state, network::KIND_ROW, self.circuit);
        let address = reg(self.state, network::WRITE_ROW, self.circuit);
        match Header::new(kind, address, self.slot().route) {
            Ok(header) => header.0,
            Err(_) => 0,
        }
    }

    // The word that it reads next, in its source's part of the memories.
    fn payload(&self, m: &[u32]) -> u32
        ensures { result ≡ word_at m.now (source_of (sheet_in self.now.state.now) self.now.circuit * room self.now.state.now + reg_of self.now.state.now read_row self.now.circuit) }
    {
        let node = Circuit::at(self.sheet, self.circuit).read.node;
        let room = sheet::memory_of(self.sheet);
        let place = reg(self.state, network::READ_ROW, self.circuit);
        words::get(m, node as usize * room as usize + place as usize)
    }

    // The word that it puts on its source's wire.
    fn word(&self, m: &[u32]) -> u32
        requires { Sendable self.now.state.now self.now.sheet.now }
        ensures { result ≡ sent_word self.now.state.now m.now self.now.circuit }
    {
        if self.opens() {
            self.header()
        } else if reg(self.state, network::TO_GO_ROW, self.circuit) == 0 {
            0
        } else {
            self.payload(m)
        }
    }

    // Puts what it sends on its source's wire, behind the circuits before it: whether that is a fault, two words for one wire or a packet
    // within a packet.
    fn put(&self, m: &[u32], marks: &mut [u32], cells: &mut [u32]) -> bool
        requires { (Sendable self.now.state.now self.now.sheet.now) × (marks.old ≡ marks_before self.now.state.now self.now.circuit) × (cells.old ≡ words_before self.now.state.now m.now self.now.circuit) }
        ensures fault { result ≡ (crowds_at self.now.state.now self.now.circuit or reopens_in self.now.state.now self.now.circuit) }
        ensures marks { marks.new ≡ marks_before self.now.state.now (self.now.circuit + 1) }
        ensures cells { cells.new ≡ words_before self.now.state.now m.now (self.now.circuit + 1) }
    {
        let mark = self.mark();
        if mark == 0 {
            return false;
        }
        let node = Circuit::at(self.sheet, self.circuit).read.node;
        let crowds = put_on_wire(node, mark, self.word(m), marks, cells);
        crowds | self.reopens(mark)
    }
}

// The circuits that open a packet in this cycle, as a mask.
fn opening_now(s: &[u32], z: &[u32], slots: &[u32]) -> u64
    requires { (Paired s.now z.now) × (slots.now ≡ slot_table s.now) }
    ensures { (c : ℕ) → c < circuits z.now → bit_at result c ≡ 0 → opens_in s.now c ≡ false }
{
    let mut opening: u64 = 0;
    for c in 0..sheet::circuits_of(z) {
        let sender = Sender {
            state: s,
            sheet: z,
            slots,
            circuit: c,
        };
        opening |= sender.opening();
    }
    opening
}

// The circuits that may put something on their wires in this cycle, as a mask: those that are amid a packet, which are lent, and those that
// open one. The slots that begin go into the table, which is lent as 64 zeros.
pub fn acting_now(s: &[u32], z: &[u32], sending: u64, slots: &mut [u32]) -> u64
    requires { (Paired s.now z.now) × (rule8 z.now ≡ true) × (slots.old ≡ tab 64 (λ (c : ℕ). 0)) × ((c : ℕ) → c < circuits z.now → bit_at sending c ≡ 0 → reg_of s.now to_go_row c ≡ 0) }
    ensures table { slots.new ≡ slot_table s.now }
    ensures acting { Acting s.now result }
{
    if slots_now(s, z, slots) {
        return sending | opening_now(s, z, slots);
    }
    sending
}

// The marks and the words on the source wires, each of the first circuit that wants the wire, and the mask of the nodes on whose wires
// something may be; refused where a source is at fault: two circuits want one wire, or one opens a packet within a packet. A circuit beside
// the mask of those that act rests. The call that found the state sound gives the requires: it lends the sheet and the slots, and 16 zeros
// twice.
pub fn source_wires_among(
    s: &[u32],
    z: &[u32],
    m: &[u32],
    slots: &[u32],
    acting: u64,
    marks: &mut [u32],
    cells: &mut [u32],
) -> Result<u64, Refusal>
    requires { (Sendable s.now z.now) × (Acting s.now acting) × (slots.now ≡ slot_table s.now) × (marks.old ≡ tab 16 (λ (n : ℕ). 0)) × (cells.old ≡ tab 16 (λ (n : ℕ). 0)) }
    ensures fault { number_of result ≡ unless 20 (not (any (nodes (sheet_in s.now)) (crowds_in s.now) or any (circuits (sheet_in s.now)) (reopens_in s.now))) }
    ensures marks { marks.new ≡ tab 16 (source_mark s.now) }
    ensures cells { cells.new ≡ tab 16 (source_word s.now m.now) }
    ensures nodes { IfOk result (λ wires. (n : ℕ) → n < 16 → bit_at wires n ≡ 0 → (source_mark s.now n ≡ 0) × (source_word s.now m.now n ≡ 0)) }
{
    // A state that passed has the rows; behind this test the compiler drops one at each read.
    if s.len() < network::MOVING_WORDS {
        return Ok(0);
    }
    let count = sheet::circuits_of(z);
    let mut fault = false;
    let mut wires: u64 = 0;
    for c in occupancy::places(acting, count) {
        let sender = Sender {
            state: s,
            sheet: z,
            slots,
            circuit: c,
        };
        fault |= sender.put(m, marks, cells);
        wires |= occupancy::only(Circuit::at(z, c).read.node);
    }
    if fault {
        return Err(Refusal::CycleAtFault);
    }
    Ok(wires)
}

// The marks and the words on the source wires, each of the first circuit that wants the wire, and whether a source is at fault: two
// circuits want one wire, or one opens a packet within a packet. A circuit that has no words left has none to go, and rests. No crate calls
// it, as the cycle goes among the circuits that act; whoever has a sound state meets the requires, with its sheet, its slots and 16 zeros
// twice.
pub fn source_wires(
    s: &[u32],
    z: &[u32],
    m: &[u32],
    slots: &[u32],
    marks: &mut [u32],
    cells: &mut [u32],
) -> bool
    requires { (Sendable s.now z.now) × (Steppable s.now) × (slots.now ≡ slot_table s.now) × (marks.old ≡ tab 16 (λ (n : ℕ). 0)) × (cells.old ≡ tab 16 (λ (n : ℕ). 0)) }
    ensures fault { result ≡ (any (nodes (sheet_in s.now)) (crowds_in s.now) or any (circuits (sheet_in s.now)) (reopens_in s.now)) }
    ensures marks { marks.new ≡ tab 16 (source_mark s.now) }
    ensures cells { cells.new ≡ tab 16 (source_word s.now m.now) }
{
    source_wires_among(s, z, m, slots, network::ALL_CIRCUITS, marks, cells).is_err()
}

// Sends a payload word of circuit c: one fewer is left and to go, and both addresses rise.
fn send_word(s: &mut [u32], c: u32)
    requires { (Sending s.old c) × (1 ≤ reg_of s.old to_go_row c) }
    ensures { s.new ≡ send_word s.old c }
{
    let left = reg(s, network::LEFT_ROW, c);
    let read = reg(s, network::READ_ROW, c);
    let write = reg(s, network::WRITE_ROW, c);
    let to_go = reg(s, network::TO_GO_ROW, c);
    put_reg(s, network::LEFT_ROW, c, left - 1);
    put_reg(s, network::READ_ROW, c, read + 1);
    put_reg(s, network::WRITE_ROW, c, write + 1);
    put_reg(s, network::TO_GO_ROW, c, to_go - 1);
}

// Steps the sender of circuit c; a packet has as many payload words as its slot has room for, or as are left. The answer is the circuit's
// mask where it goes on sending, else none.
fn step_sender(s: &mut [u32], slots: &[u32], c: u32) -> u64
    requires { (Paired s.old (sheet_in s.old)) × (slots.now ≡ slot_table s.old) × (c < circuits (sheet_in s.old)) × (Sending s.old c) }
    ensures state { s.new ≡ sender_put (move_in s.old c) s.old c }
    ensures sending { bit_at result c ≡ 0 → reg_of s.new to_go_row c ≡ 0 }
{
    let left = reg(s, network::LEFT_ROW, c);
    let to_go = reg(s, network::TO_GO_ROW, c);
    if left == 0 {
        return 0;
    }
    let sender = Sender {
        state: s,
        sheet: network::sheet_of(s),
        slots,
        circuit: c,
    };
    let slot = sender.slot();
    if slot.size != 0 {
        put_reg(s, network::TO_GO_ROW, c, (slot.size - 1).min(left));
        return occupancy::only(c);
    }
    if to_go == 0 {
        return 0;
    }
    send_word(s, c);
    if to_go == 1 {
        return 0;
    }
    occupancy::only(c)
}

// Steps the senders of the circuits that act, in place; the others rest. The answer is the mask of those that go on sending. The call that
// found the state sound gives the requires.
pub fn step_senders_among(s: &mut [u32], slots: &[u32], acting: u64) -> u64
    requires { (Steppable s.old) × (slots.now ≡ slot_table s.old) × (Acting s.old acting) }
    ensures state { s.new ≡ stage left_row to_go_row (circuits (sheet_in s.old)) (next_in_row s.old []) s.old }
    ensures sending { (c : ℕ) → c < circuits (sheet_in s.old) → bit_at result c ≡ 0 → reg_of s.new to_go_row c ≡ 0 }
{
    // A state that passed has the rows; behind this test the compiler drops one at each read.
    if s.len() < network::MOVING_WORDS {
        return acting;
    }
    let count = sheet::circuits_of(network::sheet_of(s));
    let mut sending: u64 = 0;
    for c in occupancy::places(acting, count) {
        sending |= step_sender(s, slots, c);
    }
    sending
}

// Steps the senders of all circuits, in place. No crate calls it, as the cycle goes among the circuits that act; whoever has a sound state
// meets the requires.
pub fn step_senders(s: &mut [u32], slots: &[u32])
    requires { (Steppable s.old) × (slots.now ≡ slot_table s.old) }
    ensures { s.new ≡ stage left_row to_go_row (circuits (sheet_in s.old)) (next_in_row s.old []) s.old }
{
    step_senders_among(s, slots, network::ALL_CIRCUITS);
}
