// The routes of a sheet's entries: the rules 9 and 10.
#![tactic(auto)]

ghost use Rattle.std.specs.Prelude.{◌≡◌, true, ◌<◌};
ghost use Rattle.torus.specs.Inner.Paths.{path_of};
ghost use Rattle.torus.specs.Route.{route_from};
ghost use Rattle.sheet.specs.Sheet.{columns, rows, nodes, is_long, circuits as circuit_count, schedules, period};
ghost use Rattle.sheet.specs.Rules.{each_entry, entry_leads, entry_ends, rule9, rule10};
ghost use Rattle.sheet.specs.Inner.Passed.{Ranged};
ghost use Rattle.routes.specs.Inner.Joined.{Joined, Timed, circuit_span, circuit_spans};

use sheet::{Circuit, Circuits, Entry, Frame};
use torus::Path;

// The cycles of the hops between circuit k's nodes.
fn circuit_span(circuits: Circuits, k: u32) -> u32
    requires { k < circuit_count circuits.frame.words.now }
    ensures { result ≡ circuit_span circuits.entry.frame.words.now k }
{
    let frame = circuits.frame;
    let circuit = Circuit::at(frame.words, k);
    frame.grid().span(
        sheet::is_long(frame.words),
        circuit.read.node,
        circuit.receive.node,
    )
}

// The spans of all circuits, so that each is worked out once.
pub fn circuit_spans(circuits: Circuits) -> [u32; 64]
    ensures { result ≡ circuit_spans circuits.entry.frame.words.now }
{
    let mut spans = [0u32; 64];
    for k in 0..sheet::circuits_of(circuits.frame.words) {
        spans[k as usize] = circuit_span(circuits, k);
    }
    spans
}

// Where a route leads from a node of the sheet's grid, of whichever kind. Whoever has checked the circuits has a node of the grid.
pub fn path_from(frame: Frame, source: u32, route: u32) -> Option<Path>
    requires { source < nodes frame.words.now }
    ensures { result ≡ path_of (route_from (columns frame.entry.words.now) (rows frame.entry.words.now) (is_long frame.entry.words.now) source route) }
{
    let grid = frame.grid();
    if sheet::is_long(frame.words) {
        grid.follow::<true>(source, route)
    } else {
        grid.follow::<false>(source, route)
    }
}

// The routes of a sheet of which the rules 1 to 4 and 7 are kept, and the spans of its circuits.
#[derive(Clone, Copy)]
pub struct Routes<'a> {
    pub frame: Frame<'a>,
    pub spans: &'a [u32],
    pub ghost ranged: { Ranged frame.words.now },
    pub ghost own_spans: { spans.now ≡ circuit_spans frame.words.now },
}

impl Routes<'_> {
    // Number 9 at one entry: its route leads to the destination in no more hops than the distance. Such a route takes no fewer cycles than the
    // span, and no more exactly where it has no more hops.
    fn entry_leads(self, e: Entry) -> bool
        requires { Joined self.frame.words.now e }
        ensures { result ≡ entry_leads self.entry.frame.words.now e }
    {
        let circuit = Circuit::at(self.frame.words, e.circuit);
        let Some(path) = path_from(self.frame, circuit.read.node, e.route) else {
            return false;
        };
        let span = words::get(self.spans, e.circuit as usize);
        path.node == circuit.receive.node
            && torus::ROUTER_CYCLES * path.hops + path.vertical <= span
    }

    // Number 9 at schedule j.
    fn entries_lead(self, j: u32) -> bool
        requires { j < schedules self.frame.words.now }
        ensures { result ≡ each_entry self.entry.frame.words.now j (entry_leads self.entry.frame.words.now) }
    {
        let entries = self.frame.entries(j);
        for i in 0..entries.len() / 4 {
            if !self.entry_leads(Entry::at(entries, i)) {
                return false;
            }
        }
        true
    }

    // Number 9: each route leads from its circuit's source to its destination in no more hops than their distance.
    pub fn keeps_rule9(self) -> bool
        ensures { result ≡ rule9 self.entry.frame.words.now }
    {
        (0..sheet::schedules_of(self.frame.words)).all(|j| self.entries_lead(j))
    }

    // Number 10 at one entry whose route leads to the destination: its hops then take the span.
    fn entry_ends(self, period: u32, e: Entry) -> bool
        requires { (Timed self.frame.words.now period e) × (entry_leads self.frame.words.now e ≡ true) }
        ensures { result ≡ entry_ends self.entry.frame.words.now period e }
    {
        let span = words::get(self.spans, e.circuit as usize);
        e.offset + e.size - 1 + span <= period + 2
    }

    // Number 10 at schedule j. The checker calls the rules in their order, and so meets the requires, here and below.
    fn entries_end(self, j: u32) -> bool
        requires { (rule9 self.frame.words.now ≡ true) × (j < schedules self.frame.words.now) }
        ensures { result ≡ each_entry self.entry.frame.words.now j (entry_ends self.entry.frame.words.now (period self.entry.frame.words.now j)) }
    {
        let period = self.frame.schedule_period(j);
        let entries = self.frame.entries(j);
        for i in 0..entries.len() / 4 {
            if !self.entry_ends(period, Entry::at(entries, i)) {
                return false;
            }
        }
        true
    }

    // Number 10: each packet's last word is on its last wire before the next period's packets can be.
    pub fn keeps_rule10(self) -> bool
        requires { rule9 self.frame.words.now ≡ true }
        ensures { result ≡ rule10 self.entry.frame.words.now }
    {
        (0..sheet::schedules_of(self.frame.words)).all(|j| self.entries_end(j))
    }
}
