// The links between the routers: their registers, and the extra registers of long vertical links, each stage written in place.
#![tactic(auto)]

ghost use Rattle.std.specs.Prelude.{◌≡◌, [], ◌+◌, ◌*◌, ◌<◌, ◌≤◌, length};
ghost use Rattle.words.specs.Words.{pick, word as word_at};
ghost use Rattle.occupancy.specs.Inner.Occupancy.{bit_at};
ghost use Rattle.sheet.specs.Sheet.{is_long, nodes as node_count};
ghost use Rattle.sheet.specs.Inner.Passed.{Headed};
ghost use Rattle.network.specs.Registers.{sheet_in, moving_words, row_words, link_mark, link_word, out_mark, extra_mark, extra_word};
ghost use Rattle.network.specs.Inner.Machine.{next_in_row};
ghost use Rattle.network.specs.Inner.Stages.{stage, link_from};
ghost use Rattle.network.specs.Inner.Live.{EmptyBeside};
ghost use Rattle.links.specs.Inner.Linking.{linked, pushed_by, KeptBeside, sourced, SourcesBeside, SidesEmpty, side_row, pushed_sides, extended};

use network::{LINK_MARKS, LINK_WORDS, MOST_NODES, ROW_WORDS, put_reg, put_row_reg, reg, row_reg};
use torus::Grid;

// No sheet has more nodes than the largest grid, and no state has fewer words than its rows; the stages return at once where that is not so,
// so that a compiler can know every place to be in its row, and every row in the state, and leave out the test at each access that is not by
// a proved index.

// Puts a mark and a word into link register k.
fn put_link(s: &mut [u32], k: u32, mark: u32, word: u32)
    requires { (k < row_words) × (moving_words ≤ length s.old) }
    ensures { s.new ≡ linked s.old k mark word }
{
    put_row_reg(s, network::LINK_MARK, k, mark);
    put_row_reg(s, network::LINK_WORD, k, word);
}

// The row of the marks that come out of vertical links: of the extra registers where these links are long, else of the outputs. In both
// cases the words are in the row behind it.
fn vertical_row(z: &[u32]) -> u32
    ensures { result ≡ pick (is_long z.now) extra_mark out_mark }
{
    if sheet::is_long(z) {
        network::EXTRA_MARK
    } else {
        network::OUT_MARK
    }
}

// Empties the link registers of so many inputs.
fn clear_links(s: &mut [u32], count: u32)
    requires { (count ≤ row_words) × (moving_words ≤ length s.old) }
    ensures { s.new ≡ stage link_mark link_word count (λ row k. 0) s.old }
{
    for k in 0..count as usize {
        s[LINK_MARKS + k] = 0;
        s[LINK_WORDS + k] = 0;
    }
}

// What comes out of a side's link, the mark from a row and the word from the row behind it, goes into the link register of the neighbour's
// opposite side; where both are 0, that register is left empty. The answer is the mask of that neighbour, or of no node.
fn push_side(s: &mut [u32], grid: Grid, node: u32, side: u32, row: u32) -> u64
    requires { (node < grid.cols * grid.rows) × (side < 4) × (row ≤ extra_mark) × (moving_words ≤ length s.old) }
    ensures state { s.new ≡ pushed_by s.old grid.cols grid.rows node side row }
    ensures live { KeptBeside result s.old s.new }
{
    let from = node * 5 + side;
    let mark = row_reg(s, row, from);
    let word = row_reg(s, row + 1, from);
    if mark | word == 0 {
        return 0;
    }
    let near = grid.neighbour(node, side);
    put_link(s, near * 5 + (side + 2) % 4, mark, word);
    occupancy::only(near)
}

// The row of the marks that come out of a side's link, of which that of the vertical sides is given.
fn side_row(vertical: u32, side: u32) -> u32
    ensures { result ≡ side_row vertical side }
{
    if torus::is_vertical(side) {
        vertical
    } else {
        network::OUT_MARK
    }
}

// The marks and the words that come out of a node's links, joined by or: 0 where all of them are 0. They are read by proved indices, so that
// nothing is tested on the way.
fn sides_joined(s: &[u32], node: u32, vertical: u32) -> u32
    requires { (node < 16) × (vertical ≤ extra_mark) × (moving_words ≤ length s.now) }
    ensures { result ≡ 0 → SidesEmpty s.now node vertical }
{
    let mut joined: u32 = 0;
    for side in 0..4 {
        let from = (side_row(vertical, side) as usize) * ROW_WORDS + (node * 5 + side) as usize;
        joined |= s[from] | s[from + ROW_WORDS];
    }
    joined
}

// What comes out of a node's four links; of most nodes nothing does, and then no neighbour is looked for. The answer is the mask of the
// neighbours that it goes to.
fn push_sides(s: &mut [u32], grid: Grid, node: u32, vertical: u32) -> u64
    requires { (node < grid.cols * grid.rows) × (vertical ≤ extra_mark) × (moving_words ≤ length s.old) }
    ensures state { s.new ≡ pushed_sides 4 s.old grid.cols grid.rows node vertical }
    ensures live { KeptBeside result s.old s.new }
{
    if sides_joined(s, node, vertical) == 0 {
        return 0;
    }
    let mut live: u64 = 0;
    for side in 0..4 {
        live |= push_side(s, grid, node, side, side_row(vertical, side));
    }
    live
}

// What is on the source wires goes into the link registers of their nodes. Those beside the mask are empty, since they were emptied before, and so
// are their wires.
fn push_sources(s: &mut [u32], nodes: u32, sources: u64, marks: &[u32], cells: &[u32])
    requires { (nodes ≤ 16) × (moving_words ≤ length s.old) × (SourcesBeside nodes sources marks.now cells.now s.old) }
    ensures { s.new ≡ stage link_mark link_word (nodes * 5) (sourced marks.now cells.now s.old) s.old }
{
    for node in occupancy::places(sources, nodes) {
        let mark = words::get(marks, node as usize);
        let word = words::get(cells, node as usize);
        put_link(s, node * 5 + network::SOURCE_INPUT, mark, word);
    }
}

// The link registers of all inputs: what comes out of the links of the nodes that have something there, and what is on the source wires
// of those that have, a mark and a word a node. They are emptied first, since few words are under way in most cycles. The answer is the
// mask of the nodes whose link registers may hold something now. The cycle calls it on a sound state, with masks that have every node at
// which something is, and so meets the requires, here and above.
pub fn step_links_among(s: &mut [u32], ends: u64, sources: u64, marks: &[u32], cells: &[u32]) -> u64
    requires { (Headed (sheet_in s.old)) × (moving_words ≤ length s.old) × ((node : _) → node < node_count (sheet_in s.old) → bit_at ends node ≡ 0 → SidesEmpty s.old node (pick (is_long (sheet_in s.old)) extra_mark out_mark)) × ((node : _) → node < node_count (sheet_in s.old) → bit_at sources node ≡ 0 → (word_at marks.now node ≡ 0) × (word_at cells.now node ≡ 0)) }
    ensures state { s.new ≡ stage link_mark link_word (node_count (sheet_in s.old) * 5) (link_from marks.now cells.now s.old) s.old }
    ensures live { EmptyBeside s.new result link_mark × EmptyBeside s.new result link_word }
{
    if s.len() < network::MOVING_WORDS {
        return 0;
    }
    let z = network::sheet_of(s);
    let grid = sheet::grid_of(z);
    let nodes = grid.nodes();
    let vertical = vertical_row(z);
    if MOST_NODES < nodes {
        return 0;
    }
    clear_links(s, nodes * 5);
    let mut live: u64 = 0;
    for node in occupancy::places(ends, nodes) {
        live |= push_sides(s, grid, node, vertical);
    }
    push_sources(s, nodes, sources, marks, cells);
    live | sources
}

// The link registers of all inputs, whatever there is at the nodes: what comes out of the neighbours' links, and what is on the source wires, a
// mark and a word a node. No crate calls it now: the cycle calls step_links_among. Whoever does so on a sound state, whose sheet passes, meets
// the requires.
pub fn step_links(s: &mut [u32], marks: &[u32], cells: &[u32])
    requires { (Headed (sheet_in s.old)) × (moving_words ≤ length s.old) }
    ensures { s.new ≡ stage link_mark link_word (node_count (sheet_in s.old) * 5) (link_from marks.now cells.now s.old) s.old }
{
    step_links_among(s, network::ALL_NODES, network::ALL_NODES, marks, cells);
}

// The extra register of output k takes what is on the output.
fn step_extra(s: &mut [u32], k: u32)
    ensures { s.new ≡ extended s.old k }
{
    let mark = reg(s, network::OUT_MARK, k);
    let word = reg(s, network::OUT_WORD, k);
    put_reg(s, network::EXTRA_MARK, k, mark);
    put_reg(s, network::EXTRA_WORD, k, word);
}

// The extra registers of long vertical links, after the links have taken what was in them and before the outputs change; a grid without
// such links has none. The cycle calls it on a sound state with its sheet's own numbers.
pub fn step_extras(s: &mut [u32], nodes: u32, long: bool)
    requires { (moving_words ≤ length s.old) × (nodes ≡ node_count (sheet_in s.old)) × (nodes ≤ 16) × (long ≡ is_long (sheet_in s.old)) }
    ensures { s.new ≡ stage extra_mark extra_word (nodes * 5) (next_in_row s.old []) s.old }
{
    if s.len() < network::MOVING_WORDS {
        return;
    }
    if !long {
        return;
    }
    if MOST_NODES < nodes {
        return;
    }
    for node in 0..nodes {
        step_extra(s, node * 5);
        step_extra(s, node * 5 + 2);
    }
}
