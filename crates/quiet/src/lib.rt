// Quiet cycles: nothing is in the routers, nothing is being sent, and no slot of a circuit with words left begins. Only the clock moves, and
// nothing lands. The rows are read by proved indices, so that the compiler takes several words at once.
#![tactic(auto)]

mod openings;

ghost use Rattle.std.specs.Prelude.{◌≡◌, ◌<◌, ◌≤◌, length};
ghost use Rattle.words.specs.Tests.{all, ◌=?◌};
ghost use Rattle.sheet.specs.Inner.Passed.{Headed};
ghost use Rattle.network.specs.Registers.{reg as reg_of, sheet_in, moving_words, row_count, row_words};
ghost use Rattle.network.specs.Inner.Quiet.{empty_at, is_still, is_quiet, quiet_next};
ghost use Rattle.quiet.specs.Inner.Settled.{Settled};
ghost use Rattle.quiet.specs.Inner.Crossed.{Stretch, Crossed};

use network::{
    CHOICES, EXTRA_MARKS, EXTRA_WORDS, HEAD_MARKS, HEAD_WORDS, LINK_MARKS, LINK_WORDS, OUT_MARKS,
    OUT_WORDS, ROW_WORDS, reg,
};

// The first words of a row joined by or, without a test and an exit at each, here and below: 0 where all of them are 0. A sound state has
// the rows.
fn row_joined(s: &[u32], row: u32, count: u32) -> u32
    requires { (row < row_count) × (count ≤ row_words) × (moving_words ≤ length s.now) }
    ensures { (result =? 0) ≡ all count (λ k. reg_of s.now row k =? 0) }
{
    let from = row as usize * ROW_WORDS;
    let mut joined: u32 = 0;
    for k in 0..count as usize {
        joined |= s[from + k];
    }
    joined
}

// The words of the routers' rows at a place, without the latches', joined by or: 0 where all of them are 0.
pub fn place_joined(s: &[u32], k: usize) -> u32
    requires { (k < row_words) × (moving_words ≤ length s.now) }
    ensures { (result =? 0) ≡ empty_at s.now k }
{
    s[LINK_MARKS + k]
        | s[LINK_WORDS + k]
        | s[HEAD_MARKS + k]
        | s[HEAD_WORDS + k]
        | s[CHOICES + k]
        | s[OUT_MARKS + k]
        | s[OUT_WORDS + k]
        | s[EXTRA_MARKS + k]
        | s[EXTRA_WORDS + k]
}

// The words of the routers' rows, without the latches', joined at the first places.
fn routers_joined(s: &[u32], places: u32) -> u32
    requires { (places ≤ row_words) × (moving_words ≤ length s.now) }
    ensures { (result =? 0) ≡ all places (empty_at s.now) }
{
    let mut joined: u32 = 0;
    for k in 0..places as usize {
        joined |= place_joined(s, k);
    }
    joined
}

// Nothing is in the routers, and nothing is being sent. Words under way are mostly seen in the link registers, so these are looked at first.
fn is_still(s: &[u32]) -> bool
    requires { (Headed (sheet_in s.now)) × (moving_words ≤ length s.now) }
    ensures { result ≡ is_still s.now }
{
    let z = network::sheet_of(s);
    let places = sheet::nodes_of(z) * 5;
    row_joined(s, network::LINK_MARK, places) == 0
        && routers_joined(s, places) == 0
        && row_joined(s, network::TO_GO_ROW, sheet::circuits_of(z)) == 0
}

// The next cycle is quiet. machine::step has words that passed 12 to 14, which meet the requires, here and below.
pub fn is_quiet(s: &[u32]) -> bool
    requires { Settled s.now }
    ensures { result ≡ is_quiet s.now }
{
    let cycle = reg(s, network::CLOCK_ROW, network::CYCLE_PLACE);
    is_still(s) && cycle < openings::next_opening(s, network::sheet_of(s), cycle + 1)
}

// Crosses a quiet cycle.
pub fn cross_quiet(s: &mut [u32])
    requires { Settled s.old }
    ensures { s.new ≡ quiet_next s.old }
{
    let nodes = sheet::nodes_of(network::sheet_of(s));
    receivers::clear_landings(s, nodes);
    receivers::step_clock(s);
}

// So many cycles from this one on, up to the next slot of a circuit with words left, the period's end or `most`.
fn cycles_to_cross(s: &[u32], most: u32) -> u32
    requires { Settled s.now }
    ensures { Stretch s.now most result }
{
    let cycle = reg(s, network::CLOCK_ROW, network::CYCLE_PLACE);
    let left = receivers::period_now(s) - cycle;
    let until = cycle + most.min(left);
    openings::next_opening(s, network::sheet_of(s), until) - cycle
}

// Crosses the quiet cycles from this one on at once, at most so many: how many they are, 0 where the state is not still. A sound state
// meets the requires. The last of them makes the period's turn where it ends the period.
pub fn rest(s: &mut [u32], most: u32) -> u32
    requires { Settled s.old }
    ensures { Crossed most s.old s.new result }
{
    if !is_still(s) {
        return 0;
    }
    let count = cycles_to_cross(s, most);
    if count == 0 {
        return 0;
    }
    let cycle = reg(s, network::CLOCK_ROW, network::CYCLE_PLACE);
    network::put_reg(
        s,
        network::CLOCK_ROW,
        network::CYCLE_PLACE,
        cycle + (count - 1),
    );
    cross_quiet(s);
    count
}
