// The routers' part of a clock cycle, over the words of a session state: number 20's tests of their words, the crossbars, and the header
// stages, written in place.
#![tactic(auto)]

ghost use Rattle.std.specs.Prelude.{◌≡◌, ◌+◌, ◌*◌, ◌/◌, ◌%◌, ◌<◌, ◌≤◌, [], length};
ghost use Rattle.words.specs.Tests.{any, ◌and◌, ◌or◌, ◌≤?◌, ◌<?◌, ◌=?◌};
ghost use Rattle.words.specs.Words.{pick, tab};
ghost use Rattle.sheet.specs.Sheet.{nodes as node_count};
ghost use Rattle.occupancy.specs.Inner.Occupancy.{bit_at};
ghost use Rattle.network.specs.Registers.{reg as reg_of, sheet_in, moving_words, link_mark, link_word, latch_row, row_words, head_mark, out_mark, out_word};
ghost use Rattle.network.specs.Inner.Machine.{next_choice, next_out_mark, next_out_word, collides_in, unheld_in, unchosen_in, next_in_row};
ghost use Rattle.network.specs.Inner.Stages.{stage, out_from};
ghost use Rattle.network.specs.Inner.Live.{EmptyBeside, Stays};
ghost use Rattle.routers.specs.Inner.Crossing.{Crossed, HeadsEmpty, CrossedInputs};
ghost use Rattle.routers.specs.Inner.Stepping.{head_stepped, heads_stepped};

use network::{HEAD_MARKS, MOST_NODES, ROW_WORDS, put_reg, put_row_reg, reg, row_reg};

// No sheet has more nodes than the largest grid, nor more places than a row has words, and no state has fewer words than its rows; the stages
// return at once where that is not so, so that a compiler can know every place to be in its row, and every row in the state, and leave out
// the test at each access that is not by a proved index.

// Marks from this one on are those of payload words.
const PAYLOAD_MARK: u32 = 2;

// 1 for the mark of a payload word and a latch that holds no choice, else 0. Both are read before they are tested, so that the loop over
// them has no jump.
fn unheld(mark: u32, latch: u32) -> u32
    ensures { result ≡ pick (2 ≤? mark and latch =? 0) 1 0 }
{
    u32::from((PAYLOAD_MARK <= mark) & (latch == 0))
}

// Number 20: some payload word in a link register finds no choice held. A cycle, which knows its nodes, meets the requires, here and below.
pub fn has_unheld(s: &[u32], count: u32) -> bool
    requires { (count ≡ node_count (sheet_in s.now) * 5) × (count ≤ row_words) }
    ensures { result ≡ any (node_count (sheet_in s.now)) (λ node. any 5 (unheld_in s.now node)) }
{
    if s.len() < network::MOVING_WORDS {
        return false;
    }
    if ROW_WORDS < count as usize {
        return false;
    }
    let mut faults: u32 = 0;
    for k in 0..count {
        let mark = reg(s, network::LINK_MARK, k);
        let latch = reg(s, network::LATCH_ROW, k);
        faults += unheld(mark, latch);
    }
    1 <= faults
}

// The word of input k goes to the output that was chosen for it, where no other word is yet; 1 where one is, or where a payload word has
// no choice, else 0: a number to be added up, since a flag in its place made the crossbar slower (measured, docs/PROOF-NOTES.md).
fn cross_input(s: &[u32], k: u32, marks: &mut [u32], cells: &mut [u32]) -> u32
    requires { (k < row_words) × (moving_words ≤ length s.now) × (length marks.old ≡ row_words) × (length cells.old ≡ row_words) }
    ensures { Crossed s.now k marks.old cells.old marks.new cells.new result }
{
    let mark = row_reg(s, network::HEAD_MARK, k);
    if mark == 0 {
        return 0;
    }
    let choice = row_reg(s, network::CHOICE_ROW, k);
    if choice == 0 {
        return u32::from(PAYLOAD_MARK <= mark);
    }
    if network::OUTPUTS < choice {
        return 0;
    }
    let place = ((k / 5) * 5 + choice - 1) as usize;
    if marks[place] != 0 {
        return 1;
    }
    marks[place] = mark;
    cells[place] = row_reg(s, network::HEAD_WORD, k);
    0
}

// The marks of five inputs' header stages from input k on, joined by or: 0 where all of them are 0. They are read by proved indices, so that
// nothing is tested on the way.
fn heads_joined(s: &[u32], k: u32) -> u32
    requires { (k + 4 < row_words) × (moving_words ≤ length s.now) }
    ensures { result ≡ 0 → HeadsEmpty s.now k }
{
    let from = HEAD_MARKS + k as usize;
    let mut joined: u32 = 0;
    for input in 0..5 {
        joined |= s[from + input];
    }
    joined
}

// The five inputs of a node, from input k on, one after the other; most nodes have no word there, which one test tells. Answers how many
// of them have a fault.
fn cross_node(s: &[u32], k: u32, marks: &mut [u32], cells: &mut [u32]) -> u32
    requires { (k + 4 < row_words) × (moving_words ≤ length s.now) × (length marks.old ≡ row_words) × (length cells.old ≡ row_words) }
    ensures { CrossedInputs s.now k marks.old cells.old 5 marks.new cells.new result }
{
    if heads_joined(s, k) == 0 {
        return 0;
    }
    let mut faults: u32 = 0;
    for input in 0..5 {
        faults += cross_input(s, k + input, marks, cells);
    }
    faults
}

// The crossbar of all nodes that may have a word in their header stages: what goes on each output, into two lent tables of zeros. Number 20:
// two words want one output, of which the first stays, or a payload word left the header stage with no choice. The cycle, which lends new
// tables and a mask of the nodes that have words there, meets the requires.
pub fn cross_among(s: &[u32], nodes: u32, heads: u64, marks: &mut [u32], cells: &mut [u32]) -> bool
    requires { (nodes ≡ node_count (sheet_in s.now)) × (nodes ≤ 16) × (marks.old ≡ tab row_words (λ k. 0)) × (cells.old ≡ tab row_words (λ k. 0)) × (EmptyBeside s.now heads head_mark) }
    ensures fault { result ≡ (any (node_count (sheet_in s.now)) (λ node. any 5 (collides_in s.now node)) or any (node_count (sheet_in s.now)) (λ node. any 5 (unchosen_in s.now node))) }
    ensures marks { marks.new ≡ tab row_words (λ k. pick (k <? node_count (sheet_in s.now) * 5) (next_out_mark s.now (k / 5) (k % 5)) 0) }
    ensures cells { cells.new ≡ tab row_words (λ k. pick (k <? node_count (sheet_in s.now) * 5) (next_out_word s.now (k / 5) (k % 5)) 0) }
{
    if s.len() < network::MOVING_WORDS {
        return false;
    }
    if MOST_NODES < nodes {
        return false;
    }
    let mut faults: u32 = 0;
    for node in occupancy::places(heads, nodes) {
        faults += cross_node(s, node * 5, marks, cells);
    }
    1 <= faults
}

// The crossbar of all nodes: what goes on each output, into two lent tables of zeros. Number 20: two words want one output, of which the
// first stays, or a payload word left the header stage with no choice. No crate calls it now: the cycle calls cross_among. Whoever does so
// with the sheet's nodes and new tables meets the requires.
pub fn cross(s: &[u32], nodes: u32, marks: &mut [u32], cells: &mut [u32]) -> bool
    requires { (nodes ≡ node_count (sheet_in s.now)) × (nodes ≤ 16) × (marks.old ≡ tab row_words (λ k. 0)) × (cells.old ≡ tab row_words (λ k. 0)) }
    ensures fault { result ≡ (any (node_count (sheet_in s.now)) (λ node. any 5 (collides_in s.now node)) or any (node_count (sheet_in s.now)) (λ node. any 5 (unchosen_in s.now node))) }
    ensures marks { marks.new ≡ tab row_words (λ k. pick (k <? node_count (sheet_in s.now) * 5) (next_out_mark s.now (k / 5) (k % 5)) 0) }
    ensures cells { cells.new ≡ tab row_words (λ k. pick (k <? node_count (sheet_in s.now) * 5) (next_out_word s.now (k / 5) (k % 5)) 0) }
{
    cross_among(s, nodes, network::ALL_NODES, marks, cells)
}

// The output chosen for the word in link register k: a header's own, a payload word's by the latch; one more than it, 0 for none.
fn next_choice(s: &[u32], k: u32) -> u32
    requires { (k < row_words) × (moving_words ≤ length s.now) }
    ensures { result ≡ next_choice (k % 5) (reg_of s.now latch_row k) (reg_of s.now link_mark k) (reg_of s.now link_word k) }
{
    match row_reg(s, network::LINK_MARK, k) {
        0 => 0,
        1 => network::output_for(k % 5, row_reg(s, network::LINK_WORD, k)) + 1,
        _ => row_reg(s, network::LATCH_ROW, k),
    }
}

// The header stage of input k for a word that is there. step_head, which has read its mark and requires the rest itself, meets the requires.
fn step_head_word(s: &mut [u32], k: u32, mark: u32)
    requires { (mark ≡ reg_of s.old link_mark k) × (k < row_words) × (moving_words ≤ length s.old) }
    ensures { s.new ≡ head_stepped s.old k }
{
    let word = network::next_head_word(mark, row_reg(s, network::LINK_WORD, k));
    let choice = next_choice(s, k);
    let latch = network::next_latch(s, k);
    put_row_reg(s, network::HEAD_MARK, k, mark);
    put_row_reg(s, network::HEAD_WORD, k, word);
    put_row_reg(s, network::CHOICE_ROW, k, choice);
    put_row_reg(s, network::LATCH_ROW, k, latch);
}

// The header stage of input k: its mark, its word, its choice, and its latch, which is left alone where the link register is empty, as
// most are.
fn step_head(s: &mut [u32], k: u32)
    requires { (k < row_words) × (moving_words ≤ length s.old) }
    ensures { s.new ≡ head_stepped s.old k }
{
    let mark = row_reg(s, network::LINK_MARK, k);
    if mark != 0 {
        step_head_word(s, k, mark);
        return;
    }
    let word = row_reg(s, network::LINK_WORD, k);
    put_row_reg(s, network::HEAD_MARK, k, 0);
    put_row_reg(s, network::HEAD_WORD, k, word);
    put_row_reg(s, network::CHOICE_ROW, k, 0);
}

// The header stages of the five inputs from input k on.
fn step_node_heads(s: &mut [u32], k: u32)
    requires { (k + 4 < row_words) × (moving_words ≤ length s.old) }
    ensures { s.new ≡ heads_stepped 5 s.old k }
{
    for input in 0..5 {
        step_head(s, k + input);
    }
}

// The header stages of all nodes, of which those beside the mask have what they should have already. The cycle, whose mask has every node at
// which something is, meets the requires.
pub fn step_heads_among(s: &mut [u32], nodes: u32, live: u64)
    requires { (moving_words ≤ length s.old) × (nodes ≤ 16) × ((k : _) → k < nodes * 5 → bit_at live (k / 5) ≡ 0 → Stays head_mark latch_row (next_in_row s.old []) s.old k) }
    ensures { s.new ≡ stage head_mark latch_row (nodes * 5) (next_in_row s.old []) s.old }
{
    if s.len() < network::MOVING_WORDS {
        return;
    }
    if MOST_NODES < nodes {
        return;
    }
    for node in occupancy::places(live, nodes) {
        step_node_heads(s, node * 5);
    }
}

// The header stages of so many inputs. The test of each turn is never met either; with it the compiler lays the cycle out better
// (docs/DECISIONS.md, 37). No crate calls it now: the cycle calls step_heads_among. Whoever does so on a sound state, with no more inputs
// than a row has words, meets the requires.
pub fn step_heads(s: &mut [u32], count: u32)
    requires { (moving_words ≤ length s.old) × (count ≤ row_words) }
    ensures { s.new ≡ stage head_mark latch_row count (next_in_row s.old []) s.old }
{
    if s.len() < network::MOVING_WORDS {
        return;
    }
    if ROW_WORDS < count as usize {
        return;
    }
    for k in 0..count {
        if ROW_WORDS <= k as usize {
            return;
        }
        step_head(s, k);
    }
}

// The out registers of so many outputs, from the crossbar's tables. No crate calls it now: the cycle calls that of the crate outputs. Whoever
// does so on a sound state, with no more outputs than a row has words, meets the requires.
pub fn step_outs(s: &mut [u32], count: u32, marks: &[u32], cells: &[u32])
    requires { (moving_words ≤ length s.old) × (count ≤ row_words) }
    ensures { s.new ≡ stage out_mark out_word count (out_from marks.now cells.now) s.old }
{
    if s.len() < network::MOVING_WORDS {
        return;
    }
    if ROW_WORDS < count as usize {
        return;
    }
    for k in 0..count {
        let mark = words::get(marks, k as usize);
        let word = words::get(cells, k as usize);
        put_reg(s, network::OUT_MARK, k, mark);
        put_reg(s, network::OUT_WORD, k, word);
    }
}
