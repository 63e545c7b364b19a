// Whether a state's words are sound (document 01, number 13), clause by clause as specs/Sound.antt has them.
#![tactic(auto, using(crate::proofs::ChainLaws::chains))]

ghost use Rattle.std.specs.Prelude.{true, ◌≡◌, ◌*◌, ◌≤◌};
ghost use Rattle.words.specs.Tests.{all, ◌and◌, ◌or◌, ◌≤?◌, ◌=?◌};
ghost use Rattle.packet.specs.Header.{data_kind};
ghost use Rattle.sheet.specs.Sheet.{circuits, is_long, nodes as nodes_of};
ghost use Rattle.network.specs.Registers.{reg as reg_of, sheet_in, link_mark, head_mark, out_mark, choice_row, receive_mark, receive_kind};
ghost use Rattle.soundness.specs.Sound.{kind_travels, lies_in, clock_sound, order_sound, transfer_sound, cell_sound, router_sound, extra_sound, node_sound, sound};

use network::reg;
use packet::Header;
use sheet::{Circuit, Frame, Region};

// Data and interrupts travel.
#[tactic(auto, using(crate::proofs::ChainLaws::chains), unfolding(crate::specs::Sound::kind_travels))]
pub fn kind_travels(kind: u32) -> bool
    ensures { result ≡ kind_travels kind }
{
    matches!(kind, Header::DATA | Header::INTERRUPT)
}

// So many words from an address on lie in a region; the ends are sums of 64 bits, so that they cannot wrap.
#[tactic(auto, using(crate::proofs::ChainLaws::chains), unfolding(crate::specs::Sound::lies_in))]
pub fn lies_in(region: Region, address: u32, count: u32) -> bool
    ensures { result ≡ lies_in region address count }
{
    let end = u64::from(address) + u64::from(count);
    region.offset <= address && end <= u64::from(region.offset) + u64::from(region.size)
}

// A test that data need not pass: of the kinds that travel, an interrupt alone. Other crates call it, so it stays a function.
pub fn unless_data(kind: u32, test: bool) -> bool
    ensures { result ≡ (kind =? data_kind or test) }
{
    kind == Header::DATA || test
}

// The cell in register k of two rows: its mark is a known one, and a header's kind travels; only a header's word is read.
#[tactic(auto, using(crate::proofs::ChainLaws::chains), unfolding(crate::specs::Sound::cell_sound))]
fn wire_sound(s: &[u32], marks: u32, cells: u32, k: u32) -> bool
    ensures { result ≡ cell_sound (reg_of s.now marks k) (reg_of s.now cells k) }
{
    let mark = reg(s, marks, k);
    mark <= 3 && (mark != 1 || kind_travels(Header(reg(s, cells, k)).kind()))
}

// The rest of a transfer, which has words left: its kind travels, and so many words lie in both of its regions.
fn rest_sound(circuit: Circuit, kind: u32, read: u32, write: u32, left: u32) -> bool
    ensures { result ≡ (kind_travels kind and (kind =? data_kind or left ≤? 1) and lies_in circuit.read read left and lies_in circuit.receive write left) }
{
    kind_travels(kind)
        && unless_data(kind, left <= 1)
        && lies_in(circuit.read, read, left)
        && lies_in(circuit.receive, write, left)
}

// No cell is at place k: the marks of its three cells are 0.
fn is_idle(s: &[u32], k: u32) -> bool
    ensures { result ≡ (reg_of s.now link_mark k =? 0 and reg_of s.now head_mark k =? 0 and reg_of s.now out_mark k =? 0) }
{
    reg(s, network::LINK_MARK, k) == 0
        && reg(s, network::HEAD_MARK, k) == 0
        && reg(s, network::OUT_MARK, k) == 0
}

// The choice beside a cell that is there; it is read nowhere else.
fn choice_sound(s: &[u32], k: u32) -> bool
    ensures { result ≡ (reg_of s.now head_mark k =? 0 or reg_of s.now choice_row k ≤? 5) }
{
    reg(s, network::HEAD_MARK, k) == 0 || reg(s, network::CHOICE_ROW, k) <= network::OUTPUTS
}

// The three cells beside input k, the choice beside a cell that is there, and the latch; an idle place has its latch alone.
#[tactic(auto, using(crate::proofs::ChainLaws::chains), unfolding(crate::specs::Sound::router_sound))]
fn router_sound(s: &[u32], k: u32) -> bool
    ensures { result ≡ router_sound s.now k }
{
    if is_idle(s, k) {
        return reg(s, network::LATCH_ROW, k) <= network::OUTPUTS;
    }
    wire_sound(s, network::LINK_MARK, network::LINK_WORD, k)
        && wire_sound(s, network::HEAD_MARK, network::HEAD_WORD, k)
        && wire_sound(s, network::OUT_MARK, network::OUT_WORD, k)
        && choice_sound(s, k)
        && reg(s, network::LATCH_ROW, k) <= network::OUTPUTS
}

// The extra register at place k of a grid with long vertical links, where the output there has one.
#[tactic(auto, using(crate::proofs::ChainLaws::chains), unfolding(crate::specs::Sound::extra_sound))]
fn extra_sound(s: &[u32], k: u32) -> bool
    requires { is_long (sheet_in s.now) ≡ true }
    ensures { result ≡ extra_sound s.now k }
{
    !torus::is_vertical(k % 5) || wire_sound(s, network::EXTRA_MARK, network::EXTRA_WORD, k)
}

// Node n's receive unit: its mark is a known one, and the kind of a packet that arrives travels.
fn receive_sound(s: &[u32], n: u32) -> bool
    ensures { result ≡ (reg_of s.now receive_mark n ≤? 1 and (reg_of s.now receive_mark n =? 0 or kind_travels (reg_of s.now receive_kind n))) }
{
    let mark = reg(s, network::RECEIVE_MARK, n);
    mark <= 1 && (mark == 0 || kind_travels(reg(s, network::RECEIVE_KIND, n)))
}

// Node n's receive unit and stored landing.
#[tactic(auto, using(crate::proofs::ChainLaws::chains), unfolding(crate::specs::Sound::node_sound))]
fn node_sound(s: &[u32], n: u32) -> bool
    ensures { result ≡ node_sound s.now n }
{
    receive_sound(s, n) && reg(s, network::LANDING_MARK, n) <= 1
}

// A state and its own sheet, which passes.
#[derive(Clone, Copy)]
struct Passed<'a> {
    state: &'a [u32],
    frame: Frame<'a>,
    ghost own: { frame.words.now ≡ sheet_in state.now },
}

impl<'a> Passed<'a> {
    // The schedule in force and the cycle are within range.
    #[tactic(auto, using(crate::proofs::ChainLaws::chains), unfolding(crate::specs::Sound::clock_sound))]
    fn clock_sound(&self) -> bool
        ensures { result ≡ clock_sound self.now.state.now }
    {
        let schedule = reg(self.state, network::CLOCK_ROW, network::IN_FORCE_PLACE);
        schedule < sheet::schedules_of(self.frame.words)
            && reg(self.state, network::CLOCK_ROW, network::CYCLE_PLACE)
                < self.frame.schedule_period(schedule)
    }

    // The order's mark is a known one, and a pending order's schedule exists.
    #[tactic(auto, using(crate::proofs::ChainLaws::chains), unfolding(crate::specs::Sound::order_sound))]
    fn order_sound(&self) -> bool
        ensures { result ≡ order_sound self.now.state.now }
    {
        let mark = reg(self.state, network::CLOCK_ROW, network::ORDER_MARK_PLACE);
        mark <= 1
            && (mark == 0
                || reg(
                    self.state,
                    network::CLOCK_ROW,
                    network::ORDER_SCHEDULE_PLACE,
                ) < sheet::schedules_of(self.frame.words))
    }

    // Circuit c's transfer.
    fn transfer_sound(&self, c: u32) -> bool
        ensures { result ≡ transfer_sound self.now.state.now c }
    {
        let s = self.state;
        let left = reg(s, network::LEFT_ROW, c);
        reg(s, network::TO_GO_ROW, c) <= left
            && (left == 0
                || rest_sound(
                    Circuit::at(self.frame.words, c),
                    reg(s, network::KIND_ROW, c),
                    reg(s, network::READ_ROW, c),
                    reg(s, network::WRITE_ROW, c),
                    left,
                ))
    }

    // Each circuit's transfer.
    fn transfers_sound(&self) -> bool
        ensures { result ≡ all (circuits (sheet_in self.now.state.now)) (transfer_sound self.now.state.now) }
    {
        (0..sheet::circuits_of(self.frame.words)).all(|c| self.transfer_sound(c))
    }

    // The registers of each router: five inputs and outputs a node.
    fn routers_sound(&self) -> bool
        ensures { result ≡ all (nodes_of (sheet_in self.now.state.now) * 5) (router_sound self.now.state.now) }
    {
        (0..self.frame.nodes() * 5).all(|k| router_sound(self.state, k))
    }

    // The extra registers of long vertical links; a grid without such links has none.
    fn extras_sound(&self) -> bool
        ensures { result ≡ all (nodes_of (sheet_in self.now.state.now) * 5) (extra_sound self.now.state.now) }
    {
        !sheet::is_long(self.frame.words)
            || (0..self.frame.nodes() * 5).all(|k| extra_sound(self.state, k))
    }

    // Each node's registers.
    fn nodes_sound(&self) -> bool
        ensures { result ≡ all (nodes_of (sheet_in self.now.state.now)) (node_sound self.now.state.now) }
    {
        (0..self.frame.nodes()).all(|n| node_sound(self.state, n))
    }
}

// The state is sound: its sheet passes with its stored length, and so does every clause.
pub fn is_sound(s: &[u32]) -> bool
    ensures { result ≡ sound s.now }
{
    let z = network::sheet_of(s);
    if sheet::SHEET_WORDS < words::get(s, network::MOVING_WORDS)
        || checker::check_rules(z).is_err()
    {
        return false;
    }
    let state = Passed {
        state: s,
        frame: Frame { words: z },
    };
    state.clock_sound()
        && state.order_sound()
        && state.transfers_sound()
        && state.routers_sound()
        && state.extras_sound()
        && state.nodes_sound()
}
