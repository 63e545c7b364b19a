// What is worked out of a sheet once: the neighbours of all nodes, and the ends and spans of all circuits. The tables are lent, since one that is
// returned is copied.
ghost use Rattle.std.specs.Prelude.{true, ◌≡◌, ◌+◌, ◌*◌, ◌/◌, ◌<◌, ◌≤◌, length, set};
ghost use Rattle.words.specs.Words.{pick};
ghost use Rattle.torus.specs.Torus.{neighbour_of, distance_of, shorter_way};
ghost use Rattle.torus.specs.Route.{router_cycles};
ghost use Rattle.torus.specs.Inner.Paths.{wires_per_node};
ghost use Rattle.sheet.specs.Sheet.{schedules, period};
ghost use Rattle.accept.specs.Inner.Working.{Neighbours, Ends};

use sheet::{Circuits, Frame};
use torus::Grid;

// Puts the neighbours of a node at its four side wires.
fn put_neighbours(grid: Grid, node: u32, near: &mut [u32])
    requires { (node < grid.cols * grid.rows) × (grid.cols * grid.rows * wires_per_node ≤ length near.old) }
    ensures { near.new ≡ set (set (set (set near.old
        (node * wires_per_node) (neighbour_of grid.cols grid.rows node 0 * wires_per_node))
        (node * wires_per_node + 1) (neighbour_of grid.cols grid.rows node 1 * wires_per_node))
        (node * wires_per_node + 2) (neighbour_of grid.cols grid.rows node 2 * wires_per_node))
        (node * wires_per_node + 3) (neighbour_of grid.cols grid.rows node 3 * wires_per_node) }
{
    let at = (node * torus::WIRES_PER_NODE) as usize;
    near[at] = grid.neighbour(node, 0) * torus::WIRES_PER_NODE;
    near[at + 1] = grid.neighbour(node, 1) * torus::WIRES_PER_NODE;
    near[at + 2] = grid.neighbour(node, 2) * torus::WIRES_PER_NODE;
    near[at + 3] = grid.neighbour(node, 3) * torus::WIRES_PER_NODE;
}

// The neighbours of all nodes of a grid. schedules::kept_in lends tables that are long enough, here and below.
pub fn find_neighbours(grid: Grid, near: &mut [u32])
    requires { grid.cols * grid.rows * wires_per_node ≤ length near.old }
    ensures { Neighbours grid.cols grid.rows near.new }
{
    for node in 0..grid.nodes() {
        put_neighbours(grid, node, near);
    }
}

// The ends and spans of all circuits.
pub fn find_ends(circuits: Circuits, ends: &mut [u32])
    requires { length ends.old ≡ 64 }
    ensures { Ends circuits.entry.frame.words.now ends.new }
{
    let grid = circuits.frame.grid();
    let z = circuits.frame.words;
    let long = sheet::is_long(z);
    for k in 0..sheet::circuits_of(z) {
        let at = k as usize;
        let source = z[5 + 6 * at];
        let destination = z[6 + 6 * at];
        let span = grid.span(long, source, destination);
        ends[at] = source * 6 + destination * 1536 + span * 65536;
    }
}

// A period that no schedule's exceeds.
pub fn longest_period(frame: Frame) -> u32
    ensures { (j : _) → j < schedules frame.entry.words.now → period frame.entry.words.now j ≤ result }
{
    let mut longest: u32 = 0;
    for j in 0..sheet::schedules_of(frame.words) {
        longest = longest.max(frame.schedule_period(j));
    }
    longest
}
