// The numbers 9 and 11 at one entry, in one walk along its route: each wire's places are taken as the walk goes.
ghost use Rattle.std.specs.Prelude.{true, ◌≡◌, ◌+◌, ◌*◌, ◌/◌, ◌%◌, ◌<◌, ◌≤◌, length};
ghost use Rattle.sheet.specs.Sheet.{is_long};
ghost use Rattle.occupancy.specs.Inner.Occupancy.{slot_mask, TakenIfFree};
ghost use Rattle.accept.specs.Inner.Placing.{Placeable, FollowedFree, PlacedFree};

use sheet::Entry;

// Takes a wire's places, unless one is taken: whether it did. The slot's word is word q of the wire's.
fn take_wire(table: &mut [u32], wire: u32, stride: usize, q: usize, mask: u64) -> bool
    requires { (wire < 96) × (stride ≤ 34) × (q < 34) × (wire * stride + q + 1 < length table.old) }
    ensures { TakenIfFree table.old table.new (wire * stride + q) mask result }
{
    occupancy::take_free(table, (wire as usize) * stride + q, mask)
}

// Follows an entry's route from its source's router on, over no more cycles than the circuit's span, and takes the places of each output:
// whether it led to the destination's memory and found them all free. A slot's words are on each wire by so many cycles later as the way
// there takes, so one mask is shifted along; place_entry hands over the word and the mask of the slot. Whether a code is that of the side that
// the packet came in by is asked at the end alone: a walk that turns back before has too few cycles left to come to the destination. A hop is made
// before the cycles that are left are asked for, since a circuit joins two nodes. The sheet is there for the contract: long is read off it once.
fn follow_entry(
    table: &mut [u32],
    near: &[u32],
    z: &[u32],
    long: bool,
    ends: u32,
    stride: usize,
    e: Entry,
    q: usize,
    slot: u64,
) -> bool
    requires { (Placeable (length table.old) near.now z.now ends stride e) × (q ≡ e.offset / 32) × (slot ≡ slot_mask (e.offset % 32) e.size) × (long ≡ is_long z.now) }
    ensures long { length table.new ≡ length table.old }
    ensures placed { result ≡ true → FollowedFree table.old table.new z.now stride e }
{
    let mut mask = slot << 3;
    let mut node = ends % 256;
    let mut back = torus::NO_SIDE;
    let mut rest = e.route;
    let mut left = ends / 65536;
    // No turn is counted: the cycles that are left of the path end it.
    loop {
        let side = rest % 4;
        rest = rest / 4;
        let wire = node + side;
        if !take_wire(table, wire, stride, q, mask) {
            return false;
        }
        let cycles = torus::ROUTER_CYCLES + torus::link_cycles(long, side);
        if left < cycles {
            return false;
        }
        node = near[wire as usize];
        back = (side + 2) % 4;
        mask = mask << cycles;
        left = left - cycles;
        if left == 0 {
            break;
        }
    }
    if node != ends / 256 % 256 || rest != back {
        return false;
    }
    take_wire(table, node + torus::MEMORY, stride, q, mask)
}

// Takes the places of an entry's source wire and of its route, unless one is taken or the route leads elsewhere: whether it did. place_entries
// has seen that the entry's numbers are in their ranges.
pub fn place_entry(
    table: &mut [u32],
    near: &[u32],
    z: &[u32],
    long: bool,
    ends: u32,
    stride: usize,
    e: Entry,
) -> bool
    requires { (Placeable (length table.old) near.now z.now ends stride e) × (long ≡ is_long z.now) }
    ensures long { length table.new ≡ length table.old }
    ensures placed { result ≡ true → PlacedFree table.old table.new z.now stride e }
{
    let q = (e.offset / 32) as usize;
    let slot = occupancy::slot_mask(e.offset % 32, e.size);
    take_wire(table, ends % 256 + torus::SOURCE, stride, q, slot)
        && follow_entry(table, near, z, long, ends, stride, e, q, slot)
}
