// The head of a sheet: each of its five words is read here and nowhere else.
ghost use Rattle.std.specs.Prelude.{◌≡◌, ◌*◌, ◌≤◌};
ghost use Rattle.sheet.specs.Sheet.{columns, rows, is_long, memory_words, circuits, schedules, nodes};
ghost use Rattle.sheet.specs.Inner.Passed.{Headed};

use torus::Grid;

// The columns of the grid.
pub fn columns_of(z: &[u32]) -> u32
    ensures { result ≡ columns z.now }
{
    words::get(z, 0)
}

// What the second word has more than the rows where the vertical links are long.
const LONG_MARK: u32 = 256;

// The grid's vertical links are long.
pub fn is_long(z: &[u32]) -> bool
    ensures { result ≡ is_long z.now }
{
    words::get(z, 1) >= LONG_MARK
}

// The rows of the grid.
pub fn rows_of(z: &[u32]) -> u32
    ensures { result ≡ rows z.now }
{
    let word = words::get(z, 1);
    if word >= LONG_MARK {
        word - LONG_MARK
    } else {
        word
    }
}

// The memory words of a node.
pub fn memory_of(z: &[u32]) -> u32
    ensures { result ≡ memory_words z.now }
{
    words::get(z, 2)
}

// The number of circuits.
pub fn circuits_of(z: &[u32]) -> u32
    ensures { result ≡ circuits z.now }
{
    words::get(z, 3)
}

// The number of schedules.
pub fn schedules_of(z: &[u32]) -> u32
    ensures { result ≡ schedules z.now }
{
    words::get(z, 4)
}

// The grid. Whoever has checked the rules 1 and 2 meets the requires, here and below.
pub fn grid_of(z: &[u32]) -> Grid
    requires { Headed z.now }
    ensures cols { result.cols ≡ columns z.now }
    ensures rows { result.rows ≡ rows z.now }
{
    Grid {
        cols: columns_of(z),
        rows: rows_of(z),
    }
}

// The number of nodes.
pub fn nodes_of(z: &[u32]) -> u32
    requires { Headed z.now }
    ensures { (result ≡ nodes z.now) × (result ≤ 16) }
{
    grid_of(z).nodes()
}

// The memory words of all nodes.
pub fn whole_memory_of(z: &[u32]) -> u32
    requires { Headed z.now }
    ensures { result ≡ nodes z.now * memory_words z.now }
{
    nodes_of(z) * memory_of(z)
}
