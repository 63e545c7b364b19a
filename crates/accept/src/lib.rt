// A pass over a sheet that only accepts: each part of the sheet is read once, and the pass ends where it finds what it does not know to be
// right. The checker judges a sheet that it does not accept, so that no refusal depends on it.
#![tactic(auto)]

mod circuits;
mod schedules;
mod walks;
mod working;

ghost use Rattle.std.specs.Prelude.{true, ◌≡◌};
ghost use Rattle.sheet.specs.Rules.{verdict};
ghost use Rattle.sheet.specs.Inner.Passed.{Framed};

use sheet::{Circuits, Frame};

// The numbers 1 to 3.
fn keeps_frame(z: &[u32]) -> bool
    ensures { result ≡ true → Framed z.now }
{
    sheet::keeps_rule1(z) && sheet::keeps_rule2(z) && sheet::keeps_rule3(z)
}

// The sheet keeps the rules 1 to 11, where this answers true.
pub fn accepts(z: &[u32]) -> bool
    ensures { result ≡ true → verdict z.now ≡ 0 }
{
    if !keeps_frame(z) {
        return false;
    }
    let frame = Frame { words: z };
    circuits::keeps_circuits(frame) && schedules::keeps_schedules(Circuits { frame })
}
