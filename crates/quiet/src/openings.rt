// The next slot of a circuit with words left.
ghost use Rattle.std.specs.Prelude.{◌≡◌, true, ◌≤◌};
ghost use Rattle.words.specs.Tests.{◌and◌, ◌≤?◌};
ghost use Rattle.sheet.specs.Inner.Passed.{Ranged};
ghost use Rattle.sheet.specs.Rules.{rule8};
ghost use Rattle.network.specs.Registers.{reg as reg_of, clock_row, cycle_place, left_row};
ghost use Rattle.network.specs.Inner.Paired.{Paired};
ghost use Rattle.quiet.specs.Inner.Openings.{NextOpening};

use network::reg;
use sheet::Entry;

// A slot of a circuit with words left begins with this entry, in this cycle or later.
fn is_live(s: &[u32], entry: Entry, cycle: u32) -> bool
    ensures { result ≡ (cycle ≤? entry.offset and 1 ≤? reg_of s.now left_row entry.circuit) }
{
    cycle <= entry.offset && 1 <= reg(s, network::LEFT_ROW, entry.circuit)
}

// The first cycle of the period from this one on in which a slot of a circuit with words left begins, or `until` where there is none
// before it: by rule 8 no entry behind one that begins later begins before it.
pub fn next_opening(s: &[u32], z: &[u32], until: u32) -> u32
    requires { (Paired s.now z.now) × (Ranged z.now) × (rule8 z.now ≡ true) × (reg_of s.now clock_row cycle_place ≤ until) }
    ensures { NextOpening s.now until result }
{
    let cycle = reg(s, network::CLOCK_ROW, network::CYCLE_PLACE);
    let schedule = reg(s, network::CLOCK_ROW, network::IN_FORCE_PLACE);
    let entries = sheet::entries_of(z, schedule);
    let count = (entries.len() / 4) as u32;
    for i in sources::entries_passed(z, schedule, entries, cycle)..count {
        let entry = Entry::at(entries, i as usize);
        if until <= entry.offset {
            return until;
        }
        if is_live(s, entry, cycle) {
            return entry.offset;
        }
    }
    until
}
