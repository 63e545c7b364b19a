// The routers' outputs: their registers after a cycle, from the tables of the crossbars.
#![tactic(auto)]

ghost use Rattle.std.specs.Prelude.{◌≡◌, ◌+◌, ◌*◌, ◌/◌, ◌<◌, ◌≤◌, length};
ghost use Rattle.occupancy.specs.Inner.Occupancy.{bit_at};
ghost use Rattle.network.specs.Registers.{moving_words, row_words, out_mark, out_word};
ghost use Rattle.network.specs.Inner.Stages.{stage, out_from};
ghost use Rattle.network.specs.Inner.Live.{Stays};
ghost use Rattle.outputs.specs.Inner.Written.{NodeOuts};

use network::{OUT_MARKS, OUT_WORDS};

// The out registers of the five outputs from output k on, from the crossbar's tables; by proved indices, so that nothing is tested on the way.
fn step_node_outs(s: &mut [u32], k: usize, marks: &[u32], cells: &[u32])
    requires { (k + 4 < row_words) × (moving_words ≤ length s.old) × (length marks.now ≡ row_words) × (length cells.now ≡ row_words) }
    ensures { NodeOuts k marks.now cells.now s.old s.new }
{
    for at in k..k + 5 {
        s[OUT_MARKS + at] = marks[at];
    }
    for at in k..k + 5 {
        s[OUT_WORDS + at] = cells[at];
    }
}

// The out registers of all nodes, of which those beside the mask have what they should have already. A cycle that has no fault meets the
// requires, here and above.
pub fn step_outs(s: &mut [u32], nodes: u32, live: u64, marks: &[u32], cells: &[u32])
    requires { (moving_words ≤ length s.old) × (nodes ≤ 16) × (length marks.now ≡ row_words) × (length cells.now ≡ row_words) × ((k : _) → k < nodes * 5 → bit_at live (k / 5) ≡ 0 → Stays out_mark out_word (out_from marks.now cells.now) s.old k) }
    ensures { s.new ≡ stage out_mark out_word (nodes * 5) (out_from marks.now cells.now) s.old }
{
    for node in occupancy::places(live, nodes) {
        step_node_outs(s, (node * 5) as usize, marks, cells);
    }
}
