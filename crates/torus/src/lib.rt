// The torus: neighbours, distances, and where a route leads (document 01, "The grid", "The packet", "The router").
#![tactic(auto)]

ghost use Rattle.std.specs.Prelude.{◌≡◌, true, false, ◌+◌, ◌*◌, ◌/◌, ◌%◌, ◌<◌, ◌≤◌};
ghost use Rattle.torus.specs.Torus.{neighbour_of, is_vertical, distance_of, shorter_way};
ghost use Rattle.torus.specs.Route.{output_of, link_cycles, route_from, router_cycles};
ghost use Rattle.words.specs.Words.{pick};

// The entry side of a packet at its first router, and a router's output to its node's memory; 0 to 3 are the sides.
pub const NO_SIDE: u32 = 4;

pub const MEMORY_OUTPUT: u32 = 4;

pub const SOURCE: u32 = 4;

pub const MEMORY: u32 = 5;

pub const WIRES_PER_NODE: u32 = 6;

pub const ROUTER_CYCLES: u32 = 3;

pub const CODES: u32 = 8;

// Where a route leads: the node at its end, its hops, and the wires that it uses with their delays, in the first hops + 2 places of the two lists; and
// how many of the hops are over long links.
#[derive(Clone, Copy)]
pub struct Path {
    pub node: u32,
    pub hops: u32,
    pub wires: [u32; 9],
    pub delays: [u32; 9],
    pub vertical: u32,
}

// A grid of 2 to 4 columns and 2 to 4 rows. Whoever has checked a sheet's head has one.
#[derive(Clone, Copy)]
pub struct Grid {
    pub cols: u32,
    pub rows: u32,
    pub ghost cols_low: { 2 ≤ cols },
    pub ghost cols_high: { cols ≤ 4 },
    pub ghost rows_low: { 2 ≤ rows },
    pub ghost rows_high: { rows ≤ 4 },
}

// The output of a router for a packet that came in by a side (NO_SIDE at its first router) and whose next code is given: the code's
// side, or the memory where the packet came in by that side. A code is two bits of a route, which meets the requires.
pub fn output_of(entry: u32, code: u32) -> u32
    requires { code < 4 }
    ensures { result ≡ output_of entry code }
{
    match code {
        0 => match entry {
            0 => MEMORY_OUTPUT,
            _ => 0,
        },
        1 => match entry {
            1 => MEMORY_OUTPUT,
            _ => 1,
        },
        2 => match entry {
            2 => MEMORY_OUTPUT,
            _ => 2,
        },
        _ => match entry {
            3 => MEMORY_OUTPUT,
            _ => 3,
        },
    }
}

// The sides of the vertical links.
pub fn is_vertical(side: u32) -> bool
    ensures { result ≡ is_vertical side }
{
    matches!(side, 0 | 2)
}

// The cycles that a link by a side takes: one by north and south where the vertical links are long, else none.
pub fn link_cycles(long: bool, side: u32) -> u32
    ensures { result ≡ link_cycles long side }
{
    u32::from(long && is_vertical(side))
}

// The shorter way round between two places of a ring: the less of the way between them and the rest of the ring.
fn ring_distance(n: u32, a: u32, b: u32) -> u32
    requires { (a < n) × (b < n) }
    ensures { result ≡ shorter_way n a b }
{
    let way = a.abs_diff(b);
    way.min(n - way)
}

impl Grid {
    ghost use Rattle.torus.specs.Inner.Paths.{path_of};

    // The number of nodes.
    pub fn nodes(self) -> u32
        ensures { (result ≡ self.cols * self.rows) × (result ≤ 16) }
    {
        self.cols * self.rows
    }

    // The node one row up. Whoever has checked a sheet's circuits, or walks from a node of the grid, meets the requires, here and below.
    fn north(self, node: u32) -> u32
        requires { node < self.cols * self.rows }
        ensures { result ≡ neighbour_of self.cols self.rows node 0 }
    {
        if node < self.cols {
            node + self.cols * self.rows - self.cols
        } else {
            node - self.cols
        }
    }

    // The column of a node. A remainder by a number that the compiler knows takes a fraction of a division's time.
    fn column(self, node: u32) -> u32
        ensures { result ≡ node % self.cols }
    {
        match self.cols {
            2 => node % 2,
            3 => node % 3,
            _ => node % 4,
        }
    }

    // The row of a node, width by width for the same reason.
    fn row(self, node: u32) -> u32
        ensures { result ≡ node / self.cols }
    {
        match self.cols {
            2 => node / 2,
            3 => node / 3,
            _ => node / 4,
        }
    }

    // The node one row down.
    fn south(self, node: u32) -> u32
        requires { node < self.cols * self.rows }
        ensures { result ≡ neighbour_of self.cols self.rows node 2 }
    {
        let below = node + self.cols;
        if below < self.cols * self.rows {
            below
        } else {
            below - self.cols * self.rows
        }
    }

    // The node one column on by side 1, one column back by every other; a step from the last column, or the first, wraps.
    // One function for both, so that neighbour has three arms: of four the compiler makes a jump through a table, which takes longer.
    // Sides 0 and 2 are neighbour's other arms, and so it meets the requires.
    fn along_row(self, node: u32, side: u32) -> u32
        requires { (node < self.cols * self.rows) × (side ≡ 0 → ⊥) × (side ≡ 2 → ⊥) }
        ensures { result ≡ neighbour_of self.cols self.rows node side }
    {
        let place = self.column(node);
        let wrapping = if side == 1 { self.cols - 1 } else { 0 };
        if place == wrapping {
            if side == 1 {
                return node + 1 - self.cols;
            }
            return node + self.cols - 1;
        }
        if side == 1 {
            return node + 1;
        }
        node - 1
    }

    // The node one step away by a side; every number from 3 on is west.
    pub fn neighbour(self, node: u32, side: u32) -> u32
        requires { node < self.cols * self.rows }
        ensures { result ≡ neighbour_of self.cols self.rows node side }
    {
        match side {
            0 => self.north(node),
            2 => self.south(node),
            _ => self.along_row(node, side),
        }
    }

    // Where a route leads from a source node, if anywhere, on a grid whose vertical links are long or not. The kind is a constant, so that the compiler
    // knows every delay of a grid without long links and lays the routers out one after the other.
    pub fn follow<const LONG: bool>(self, source: u32, route: u32) -> Option<Path>
        requires { source < self.cols * self.rows }
        ensures { result ≡ path_of (route_from self.cols self.rows LONG source route) }
    {
        let mut wires = [0u32; 9];
        let mut delays = [0u32; 9];
        wires[0] = source * WIRES_PER_NODE + SOURCE;
        let mut node = source;
        let mut entry = NO_SIDE;
        let mut delay = ROUTER_CYCLES;
        let mut rest = route;
        let mut vertical: u32 = 0;
        for hops in 0..CODES {
            let output = output_of(entry, rest % 4);
            rest = rest / 4;
            let at = (hops + 1) as usize;
            delays[at] = delay;
            if output == MEMORY_OUTPUT {
                if rest != 0 {
                    return None;
                }
                wires[at] = node * WIRES_PER_NODE + MEMORY;
                return Some(Path {
                    node,
                    hops,
                    wires,
                    delays,
                    vertical,
                });
            }
            wires[at] = node * WIRES_PER_NODE + output;
            node = self.neighbour(node, output);
            entry = (output + 2) % 4;
            let link = link_cycles(LONG, output);
            delay += ROUTER_CYCLES + link;
            vertical += link;
        }
        None
    }

    // The fewest vertical steps between two nodes: the shorter way round in rows.
    pub fn vertical_distance(self, from: u32, to: u32) -> u32
        requires { (from < self.cols * self.rows) × (to < self.cols * self.rows) }
        ensures { result ≡ shorter_way self.rows (from / self.cols) (to / self.cols) }
    {
        ring_distance(self.rows, self.row(from), self.row(to))
    }

    // The fewest steps between two nodes: the shorter way round in columns plus the shorter way round in rows.
    pub fn distance(self, from: u32, to: u32) -> u32
        requires { (from < self.cols * self.rows) × (to < self.cols * self.rows) }
        ensures { result ≡ distance_of self.cols self.rows from to }
    {
        let in_columns = ring_distance(self.cols, self.column(from), self.column(to));
        in_columns + self.vertical_distance(from, to)
    }

    // The cycles of the hops between two nodes: three for each step of their distance, and one more for each vertical one where the vertical links are long.
    pub fn span(self, long: bool, from: u32, to: u32) -> u32
        requires { (from < self.cols * self.rows) × (to < self.cols * self.rows) }
        ensures { result ≡ router_cycles * distance_of self.cols self.rows from to + pick long (shorter_way self.rows (from / self.cols) (to / self.cols)) 0 }
    {
        let span = ROUTER_CYCLES * self.distance(from, to);
        if long {
            span + self.vertical_distance(from, to)
        } else {
            span
        }
    }
}
