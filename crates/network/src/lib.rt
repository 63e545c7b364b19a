// The clocked network over a session state that lies in lent words: the register map, and the header stage.
#![tactic(auto)]

ghost use Rattle.std.specs.Prelude.{◌≡◌, ◌%◌, ◌<◌, ◌≤◌, length};
ghost use Rattle.network.specs.Cycle.{output_for, has_extra};
ghost use Rattle.network.specs.Registers.{reg as reg_of, put, sheet_in, moving_words, row_count, row_words, latch_row, link_mark, link_word};
ghost use Rattle.network.specs.Inner.Machine.{next_head_word, next_latch};

use packet::Header;

// The register map (docs/STATE.md): rows of so many words, by their numbers, and the places in the clock's row.
pub const ROW_WORDS: usize = 80;

pub const ROW_COUNT: usize = 23;

// The words before the sheet's length; the sheet is behind it.
pub const MOVING_WORDS: usize = ROW_COUNT * ROW_WORDS;

// The published length of the state, which has room for the most words of a sheet.
pub const STATE_WORDS: usize = MOVING_WORDS + 1 + sheet::SHEET_WORDS as usize;

// The clock and the order.
pub const CLOCK_ROW: u32 = 0;

pub const CYCLE_PLACE: u32 = 0;

pub const NUMBER_PLACE: u32 = 1;

pub const IN_FORCE_PLACE: u32 = 2;

pub const ORDER_MARK_PLACE: u32 = 3;

pub const ORDER_SCHEDULE_PLACE: u32 = 4;

pub const ORDER_PERIOD_PLACE: u32 = 5;

// The routers.
pub const LINK_MARK: u32 = 1;

pub const LINK_WORD: u32 = 2;

pub const HEAD_MARK: u32 = 3;

pub const HEAD_WORD: u32 = 4;

pub const CHOICE_ROW: u32 = 5;

pub const LATCH_ROW: u32 = 6;

pub const OUT_MARK: u32 = 7;

pub const OUT_WORD: u32 = 8;

// The nodes.
pub const RECEIVE_MARK: u32 = 9;

pub const RECEIVE_KIND: u32 = 10;

pub const RECEIVE_ADDRESS: u32 = 11;

pub const LANDING_MARK: u32 = 12;

pub const LANDING_KIND: u32 = 13;

pub const LANDING_ADDRESS: u32 = 14;

pub const LANDING_WORD: u32 = 15;

// The circuits.
pub const LEFT_ROW: u32 = 16;

pub const READ_ROW: u32 = 17;

pub const WRITE_ROW: u32 = 18;

pub const KIND_ROW: u32 = 19;

pub const TO_GO_ROW: u32 = 20;

// The extra registers of long vertical links.
pub const EXTRA_MARK: u32 = 21;

pub const EXTRA_WORD: u32 = 22;

// Where rows begin, for code that reads or writes them by proved indices.
pub const LINK_MARKS: usize = LINK_MARK as usize * ROW_WORDS;

pub const LINK_WORDS: usize = LINK_WORD as usize * ROW_WORDS;

pub const HEAD_MARKS: usize = HEAD_MARK as usize * ROW_WORDS;

pub const HEAD_WORDS: usize = HEAD_WORD as usize * ROW_WORDS;

pub const CHOICES: usize = CHOICE_ROW as usize * ROW_WORDS;

pub const OUT_MARKS: usize = OUT_MARK as usize * ROW_WORDS;

pub const OUT_WORDS: usize = OUT_WORD as usize * ROW_WORDS;

pub const RECEIVE_KINDS: usize = RECEIVE_KIND as usize * ROW_WORDS;

pub const RECEIVE_ADDRESSES: usize = RECEIVE_ADDRESS as usize * ROW_WORDS;

pub const LANDING_MARKS: usize = LANDING_MARK as usize * ROW_WORDS;

pub const LANDING_KINDS: usize = LANDING_KIND as usize * ROW_WORDS;

pub const LANDING_ADDRESSES: usize = LANDING_ADDRESS as usize * ROW_WORDS;

pub const LANDING_WORDS: usize = LANDING_WORD as usize * ROW_WORDS;

pub const EXTRA_MARKS: usize = EXTRA_MARK as usize * ROW_WORDS;

pub const EXTRA_WORDS: usize = EXTRA_WORD as usize * ROW_WORDS;

// The nodes of the largest grid; no sheet has more. Their registers fill a row.
pub const MOST_NODES: u32 = 16;

// A router has five inputs and five outputs; the fifth are its node's source and its node's memory.
pub const OUTPUTS: u32 = 5;

pub const SOURCE_INPUT: u32 = 4;

pub const MEMORY_OUTPUT: u32 = torus::MEMORY_OUTPUT;

// All nodes, and all circuits, as masks.
pub const ALL_NODES: u64 = 65535;

pub const ALL_CIRCUITS: u64 = 18446744073709551615;

// Where something may be: the nodes whose link registers, header stages, outputs and extra registers may hold a word or a mark, those at
// which a word may have landed in the last cycle, and the circuits that may be amid a packet, each as a mask. At all others nothing is. A
// loop over cycles hands this on from cycle to cycle, so that a cycle costs what moves.
#[derive(Clone, Copy)]
pub struct Live {
    pub links: u64,
    pub heads: u64,
    pub outs: u64,
    pub extras: u64,
    pub landed: u64,
    pub sending: u64,
}

// Register k of a row; past the end of the words it is 0.
pub fn reg(s: &[u32], row: u32, k: u32) -> u32
    ensures { result ≡ reg_of s.now row k }
{
    words::get(s, (row as usize) * ROW_WORDS + (k as usize))
}

// Sets register k of a row; past the end of the words nothing is set.
pub fn put_reg(s: &mut [u32], row: u32, k: u32, word: u32)
    ensures { s.new ≡ put s.old row k word }
{
    words::put(s, (row as usize) * ROW_WORDS + (k as usize), word);
}

// Register k of a row by a proved index, so that nothing is tested on the way: for what links and routers read at each node that a busy cycle
// goes to. Whoever has a state's rows, and a place in one, meets the requires, here and below.
pub fn row_reg(s: &[u32], row: u32, k: u32) -> u32
    requires { (row < row_count) × (k < row_words) × (moving_words ≤ length s.now) }
    ensures { result ≡ reg_of s.now row k }
{
    s[(row as usize) * ROW_WORDS + (k as usize)]
}

// Sets register k of a row by a proved index.
pub fn put_row_reg(s: &mut [u32], row: u32, k: u32, word: u32)
    requires { (row < row_count) × (k < row_words) × (moving_words ≤ length s.old) }
    ensures { s.new ≡ put s.old row k word }
{
    let place = (row as usize) * ROW_WORDS + (k as usize);
    s[place] = word;
}

// The sheet in a state's words: so many words as the state says, or as many as are there.
pub fn sheet_of(s: &[u32]) -> &[u32]
    ensures { result.now ≡ sheet_in s.now }
{
    if s.len() <= MOVING_WORDS {
        return &s[0..0];
    }
    let from = MOVING_WORDS + 1;
    let size = words::get(s, MOVING_WORDS) as usize;
    &s[from..(from + size).min(s.len())]
}

// The link of an output has an extra register: north and south, where the vertical links are long.
pub fn has_extra(z: &[u32], output: u32) -> bool
    ensures { result ≡ has_extra z.now output }
{
    sheet::is_long(z) && torus::is_vertical(output)
}

// The output that a header asks for, by its route's first code.
pub fn output_for(input: u32, word: u32) -> u32
    ensures { result ≡ output_for input word }
{
    torus::output_of(input, Header(word).route() % 4)
}

// A word as it leaves the header stage: a header without its first code, any other word as it is.
#[tactic(auto, using(crate::proofs::StageLaws::head_shifted, crate::proofs::StageLaws::head_same))]
pub fn next_head_word(mark: u32, w: u32) -> u32
    ensures { result ≡ next_head_word mark w }
{
    if mark == 1 { Header(w).shifted().0 } else { w }
}

// The latch after a cycle: a header sets it, a packet's last word drops it.
#[tactic(auto, using(crate::proofs::StageLaws::latch_set, crate::proofs::StageLaws::latch_dropped, crate::proofs::StageLaws::latch_held))]
pub fn next_latch(s: &[u32], k: u32) -> u32
    ensures { result ≡ next_latch (k % 5) (reg_of s.now latch_row k) (reg_of s.now link_mark k) (reg_of s.now link_word k) }
{
    match reg(s, LINK_MARK, k) {
        1 => output_for(k % 5, reg(s, LINK_WORD, k)) + 1,
        3.. => 0,
        _ => reg(s, LATCH_ROW, k),
    }
}
