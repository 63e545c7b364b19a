// Calls for tests and benchmarks alone, which reach what the session's calls keep inside; no host links them.
#![tactic(auto)]

ghost use Rattle.std.specs.Prelude.{◌≡◌, ◌+◌, ◌*◌};
ghost use Rattle.refusal.specs.Numbers.{refusal_number};
ghost use Rattle.sheet.specs.Rules.{verdict};
ghost use Rattle.session.specs.Calls.{state_number, lend};
ghost use Rattle.session.specs.Inner.Resting.{cycles_on, Rested};
ghost use Rattle.probes.specs.Inner.Cycles.{cycles_answer};

use refusal::Refusal;

// A refusal's number above 32 bits, and below them the cycles before it.
fn packed(refusal: Refusal, done: u32) -> u64
    ensures { result ≡ refusal_number refusal * 4294967296 + done }
{
    u64::from(refusal.number()) * 4294967296 + u64::from(done)
}

// Runs so many inner cycles, up to one that is refused; 12 to 14 are tested once, before the first. The answer has the number of the
// refusal above 32 bits, and below them the cycles that were carried out.
#[unsafe(no_mangle)]
pub extern "C" fn probe_cycles(s: &mut [u32], m: &mut [u32], count: u32) -> u64
    ensures answer { result ≡ cycles_answer count (lend s.old m.old) }
    ensures words { lend s.new m.new ≡ cycles_on count (lend s.old m.old) }
{
    if let Err(refusal) = session::check_memory(s, m) {
        return packed(refusal, 0);
    }
    for done in 0..count {
        if let Err(refusal) = session::cycle_sound(s, m) {
            return packed(refusal, done);
        }
    }
    u64::from(count)
}

// 1 where the checker's quick pass accepts a sheet, else 0.
#[unsafe(no_mangle)]
pub extern "C" fn probe_accepts(sheet: &[u32]) -> u32
    ensures { result ≡ 1 → verdict sheet.now ≡ 0 }
{
    u32::from(accept::accepts(sheet))
}

// Crosses the quiet cycles from this one on, at most so many. The answer has 12 or 13 above 32 bits, and below them the cycles that were
// crossed.
#[unsafe(no_mangle)]
pub extern "C" fn probe_rest(s: &mut [u32], most: u32) -> u64
    ensures refused { (state_number s.old ≡ 0 → ⊥) → (result ≡ state_number s.old * 4294967296) × (s.new ≡ s.old) }
    ensures crossed { state_number s.old ≡ 0 → Rested most s.old s.new result }
{
    if let Err(refusal) = session::check_state(s) {
        return packed(refusal, 0);
    }
    u64::from(session::rest(s, most))
}
