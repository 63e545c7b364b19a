// One clock cycle, carried out in place on lent words. All that the cycle puts on wires is worked out first, and the faults are looked for
// before anything is written, so that a cycle that is refused has changed nothing. Nodes and circuits at which nothing is are passed over.
#![tactic(auto)]

ghost use Rattle.std.specs.Prelude.{◌≡◌, MatchResult};
ghost use Rattle.words.specs.Tests.{◌=?◌};
ghost use Rattle.words.specs.Words.{pick};
ghost use Rattle.refusal.specs.Numbers.{number_of};
ghost use Rattle.network.specs.Inner.Live.{Covered};
ghost use Rattle.network.specs.Inner.Machine.{next_state, next_memory};
ghost use Rattle.network.specs.OneMachine.{cycle_fault};
ghost use Rattle.tables.specs.Inner.Ready.{Ready};
ghost use Rattle.tables.specs.Inner.Tables.{Tables};
ghost use Rattle.tables.specs.Inner.Moving.{Moving};

use network::Live;
use refusal::Refusal;
use tables::{Masks, Prepared};

// Carries out a cycle that has no fault, each stage on what the one before it left: the links take what is in the extra registers before
// these take the outputs, and both before the outputs change; and the sources' words were read before a landing is stored. The answer says
// where something may be afterwards: words are a stage further.
fn carry_out(s: &mut [u32], m: &mut [u32], live: Live, masks: Masks, prepared: &Prepared) -> Live
    requires { Ready s.old m.old × Covered s.old live × Tables s.old m.old prepared.now.slots prepared.now.marks prepared.now.cells prepared.now.outs prepared.now.values × Moving s.old m.old masks.acting masks.wires }
    ensures state { s.new ≡ next_state s.old m.old }
    ensures memory { m.new ≡ next_memory s.old m.old }
    ensures covered { Covered s.new result }
{
    let z = network::sheet_of(s);
    let nodes = sheet::nodes_of(z);
    let room = sheet::memory_of(z);
    let long = sheet::is_long(z);
    // Of a grid with long links, what is on the outputs goes into the extra registers; any other has none.
    let extras = if long { live.outs } else { 0 };
    routers::step_heads_among(s, nodes, live.links | live.heads);
    let links = links::step_links_among(
        s,
        live.outs | live.extras,
        masks.wires,
        &prepared.marks,
        &prepared.cells,
    );
    receivers::step_receivers_among(s, m, nodes, room, live.outs);
    links::step_extras(s, nodes, long);
    outputs::step_outs(
        s,
        nodes,
        live.outs | live.heads,
        &prepared.outs,
        &prepared.values,
    );
    let sending = sources::step_senders_among(s, &prepared.slots, masks.acting);
    receivers::step_clock(s);
    Live {
        links,
        heads: live.links,
        outs: live.heads,
        extras,
        landed: live.outs,
        sending,
    }
}

// One clock cycle, with masks of where something may be; answers those for the next, or refuses a cycle that has a fault, and then it has
// changed nothing. A session's state and memory that have passed 12 to 14 meet the requires.
pub fn step_live(s: &mut [u32], m: &mut [u32], live: Live) -> Result<Live, Refusal>
    requires { (Ready s.old m.old) × (Covered s.old live) }
    ensures number { number_of result ≡ cycle_fault s.old }
    ensures state { s.new ≡ pick (number_of result =? 0) (next_state s.old m.old) s.old }
    ensures memory { m.new ≡ pick (number_of result =? 0) (next_memory s.old m.old) m.old }
    ensures covered { MatchResult result (Covered s.new) (λ _. Covered s.new live) }
{
    let mut prepared = Prepared::blank();
    let masks = prepared.fill(s, m, live)?;
    Ok(carry_out(s, m, live, masks, &prepared))
}

// One clock cycle; refuses one that has a fault, and then it has changed nothing. A quiet cycle is crossed without the tables. A session's
// state and memory that have passed 12 to 14 meet the requires.
pub fn step(s: &mut [u32], m: &mut [u32]) -> Result<(), Refusal>
    requires { Ready s.old m.old }
    ensures number { number_of result ≡ cycle_fault s.old }
    ensures state { s.new ≡ pick (number_of result =? 0) (next_state s.old m.old) s.old }
    ensures memory { m.new ≡ pick (number_of result =? 0) (next_memory s.old m.old) m.old }
{
    if quiet::is_quiet(s) {
        quiet::cross_quiet(s);
        return Ok(());
    }
    let live = scan::live_now(s);
    step_live(s, m, live)?;
    Ok(())
}
