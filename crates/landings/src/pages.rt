// The listing, page by page: cycles are run, and their lines put into a buffer, until it could overflow.
ghost use Rattle.std.specs.Prelude.{◌≡◌, ◌+◌, ◌*◌, ◌<◌, ◌≤◌, length, take};
ghost use Rattle.refusal.specs.Numbers.{number_of};
ghost use Rattle.words.specs.Inner.Puts.{put_all};
ghost use Rattle.sheet.specs.Sheet.{nodes as node_count};
ghost use Rattle.occupancy.specs.Inner.Occupancy.{bit_at};
ghost use Rattle.network.specs.declared.Live.{Live as LiveOf};
ghost use Rattle.network.specs.Registers.{reg as reg_of, sheet_in, landing_mark};
ghost use Rattle.network.specs.Inner.Live.{Covered};
ghost use Rattle.session.specs.Calls.{state_number, memory_number, last_landing, lend};
ghost use Rattle.session.specs.Inner.Resting.{Rested};
ghost use Rattle.landings.specs.Lines.{line_for, cycle_lines, cycles_lines, cycles_on};
ghost use Rattle.landings.specs.Inner.Pages.{Paged};

use network::Live;
use refusal::Refusal;

// Room for a cycle's lines, 16 of at most 60 bytes, and some more.
const CYCLE_BYTES: usize = 1024;

// How far a page's lines reach in the buffer, how many cycles they are of, and why the cycle behind them was refused, if it was.
#[derive(Clone, Copy)]
pub struct Page {
    pub place: usize,
    pub cycles: u32,
    pub end: Result<(), Refusal>,
}

// Puts a node's line for a cycle, where something landed; put_cycle has seen that it fits.
fn put_landing(s: &[u32], node: u32, time: u32, buffer: &mut [u8], at: usize) -> usize
    requires { at + 60 ≤ length buffer.old }
    ensures place { result ≡ at + length (line_for time node (last_landing s.now node)) }
    ensures bytes { buffer.new ≡ put_all buffer.old at (line_for time node (last_landing s.now node)) }
{
    match session::landing_at(s, node) {
        None => at,
        Some(landed) => listing::put_line(
            buffer,
            at,
            time,
            node,
            landed.address,
            landed.word,
            landed.kind,
        ),
    }
}

// Puts a cycle's lines, node by node, of which those beside the mask have none; fill has seen that they fit.
fn put_cycle(s: &[u32], nodes: u32, landed: u64, time: u32, buffer: &mut [u8], at: usize) -> usize
    requires { (nodes ≤ 16) × (at + 60 * nodes ≤ length buffer.old) × ((node : _) → node < nodes → bit_at landed node ≡ 0 → reg_of s.now landing_mark node ≡ 0) }
    ensures place { result ≡ at + length (cycle_lines nodes time s.now) }
    ensures bytes { buffer.new ≡ put_all buffer.old at (cycle_lines nodes time s.now) }
{
    let mut place = at;
    for node in occupancy::places(landed, nodes) {
        place = put_landing(s, node, time, buffer, place);
    }
    place
}

// Crosses the cycles in which nothing moves, where nothing can be under way; elsewhere it is not tried.
fn cross(s: &mut [u32], live: Live, most: u32) -> u32
    requires { state_number s.old ≡ 0 }
    ensures rested { Rested most s.old s.new result }
    ensures covered { (masks : LiveOf) → Covered s.old masks → Covered s.new masks }
{
    if live.links | live.heads | live.outs | live.extras | live.sending != 0 {
        return 0;
    }
    session::rest(s, most)
}

// Runs the cycles from `first` on and before `last`, up to one that is refused, and fills the buffer with their lines, as many as surely
// fit. The program meets the requires: load and starts were carried out.
pub fn fill(
    s: &mut [u32],
    m: &mut [u32],
    nodes: u32,
    first: u32,
    last: u32,
    buffer: &mut [u8],
) -> Page
    requires { (memory_number s.old m.old ≡ 0) × (nodes ≤ 16) × (first ≤ last) × (length buffer.old ≡ 65536) × (nodes ≡ node_count (sheet_in s.old)) }
    ensures cycles { Paged first last (lend s.old m.old) result.cycles (number_of result.end) }
    ensures words { lend s.new m.new ≡ cycles_on result.cycles (lend s.old m.old) }
    ensures lines { take result.place buffer.new ≡ cycles_lines nodes first result.cycles (lend s.old m.old) }
    ensures buffer { buffer.new ≡ put_all buffer.old 0 (cycles_lines nodes first result.cycles (lend s.old m.old)) }
    ensures fits { result.place ≤ length buffer.new }
    ensures ready { memory_number s.new m.new ≡ 0 }
{
    let mut at = 0;
    let mut time = first;
    let mut live = session::live_now(s);
    // A turn crosses as many cycles as it can, so no range counts them.
    while time < last {
        if buffer.len() < at + CYCLE_BYTES {
            return Page {
                place: at,
                cycles: time - first,
                end: Ok(()),
            };
        }
        let crossed = cross(s, live, last - time);
        if crossed != 0 {
            time += crossed;
            continue;
        }
        live = match session::cycle_live(s, m, live) {
            Ok(next) => next,
            Err(refusal) => {
                return Page {
                    place: at,
                    cycles: time - first,
                    end: Err(refusal),
                };
            }
        };
        at = put_cycle(s, nodes, live.landed, time, buffer, at);
        time += 1;
    }
    Page {
        place: at,
        cycles: time - first,
        end: Ok(()),
    }
}
