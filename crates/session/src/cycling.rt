// The cycle, on any lent words and on words that are known to be sound.
ghost use Rattle.std.specs.Prelude.{◌≡◌, MatchResult};
ghost use Rattle.refusal.specs.Numbers.{number_of};
ghost use Rattle.network.specs.declared.Live.{Live};
ghost use Rattle.session.specs.Calls.{state_number, memory_number, lend, cycle, number, after};
ghost use Rattle.network.specs.Inner.Live.{Covered};
ghost use Rattle.session.specs.Inner.Resting.{Rested};

use crate::Refusal;
use crate::reading::check_memory;
use network::Live;

// One clock cycle on words that have passed 12 to 14, which a cycle that is carried out leaves so (sound-kept): loops of ours begin with
// words that passed and need not test them again.
pub fn cycle_sound(s: &mut [u32], m: &mut [u32]) -> Result<(), Refusal>
    requires { memory_number s.old m.old ≡ 0 }
    ensures answer { number_of result ≡ number cycle (lend s.old m.old) }
    ensures state { s.new ≡ (after cycle (lend s.old m.old)).state }
    ensures memory { m.new ≡ (after cycle (lend s.old m.old)).memory }
{
    machine::step(s, m)
}

// Where something may be in the routers and senders of a state that has passed 12 and 13.
pub fn live_now(s: &[u32]) -> Live
    requires { state_number s.now ≡ 0 }
    ensures { Covered s.now result }
{
    scan::live_now(s)
}

// The same cycle for a loop that hands on where something may be: what it need not look for costs nothing. Such a loop begins with live_now,
// and goes on with what each cycle answers.
pub fn cycle_live(s: &mut [u32], m: &mut [u32], live: Live) -> Result<Live, Refusal>
    requires { (memory_number s.old m.old ≡ 0) × (Covered s.old live) }
    ensures number { number_of result ≡ number cycle (lend s.old m.old) }
    ensures state { s.new ≡ (after cycle (lend s.old m.old)).state }
    ensures memory { m.new ≡ (after cycle (lend s.old m.old)).memory }
    ensures covered { MatchResult result (Covered s.new) (λ _. Covered s.new live) }
{
    machine::step_live(s, m, live)
}

// One clock cycle.
pub fn cycle(s: &mut [u32], m: &mut [u32]) -> Result<(), Refusal>
    ensures answer { number_of result ≡ number cycle (lend s.old m.old) }
    ensures state { s.new ≡ (after cycle (lend s.old m.old)).state }
    ensures memory { m.new ≡ (after cycle (lend s.old m.old)).memory }
{
    check_memory(s, m)?;
    cycle_sound(s, m)
}

// Crosses the quiet cycles from this one on, at most so many, on a state that has passed 12 and 13: how many they are. No word is in the
// routers, none is being sent and none lands, so that the memories are not needed.
pub fn rest(s: &mut [u32], most: u32) -> u32
    requires { state_number s.old ≡ 0 }
    ensures rested { Rested most s.old s.new result }
    ensures covered { (live : Live) → Covered s.old live → Covered s.new live }
{
    quiet::rest(s, most)
}
