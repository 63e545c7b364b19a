// The checker: the verdict upon a sheet, and one schedule's entries handed back.
#![tactic(auto)]

ghost use Rattle.std.specs.Prelude.{◌≡◌, IfOk};
ghost use Rattle.refusal.specs.Numbers.{number_of};
ghost use Rattle.sheet.specs.Sheet.{blank_sheet, meant, schedules};
ghost use Rattle.sheet.specs.Rules.{frame_rules, circuit_rules, entry_rules, first_broken, sheet_number, check_number, verdict as sheet_verdict};
ghost use Rattle.checker.specs.Answers.{entries_number, entries_part};

use clash::RoutedSheet;
use refusal::Refusal;
use routes::Routes;
use sheet::{Circuits, Frame};

// The numbers 1 to 3.
fn check_frame(z: &[u32]) -> Result<Frame, Refusal>
    ensures number { number_of result ≡ first_broken frame_rules z.now }
    ensures words { IfOk result (λ frame. frame.words.now ≡ z.now) }
{
    if !sheet::keeps_rule1(z) {
        return Err(Refusal::HeadMissing);
    }
    if !sheet::keeps_rule2(z) {
        return Err(Refusal::HeadOutOfRange);
    }
    if !sheet::keeps_rule3(z) {
        return Err(Refusal::WrongLength);
    }
    Ok(Frame { words: z })
}

// The numbers 4 to 6.
fn check_circuits(frame: Frame) -> Result<Circuits, Refusal>
    ensures number { number_of result ≡ first_broken circuit_rules frame.entry.words.now }
    ensures words { IfOk result (λ circuits. circuits.frame.words.now ≡ frame.entry.words.now) }
{
    if !frame.keeps_rule4() {
        return Err(Refusal::WrongCircuit);
    }
    if !frame.keeps_rule5() {
        return Err(Refusal::CircuitsUnordered);
    }
    let circuits = Circuits { frame };
    if !circuits.keeps_rule6() {
        return Err(Refusal::RegionsOverlap);
    }
    Ok(circuits)
}

// The numbers 7 to 11.
fn check_schedules(circuits: Circuits) -> Result<(), Refusal>
    ensures { number_of result ≡ first_broken entry_rules circuits.entry.frame.words.now }
{
    let frame = circuits.frame;
    if !frame.keeps_rule7() {
        return Err(Refusal::EntryOutOfRange);
    }
    if !frame.keeps_rule8() {
        return Err(Refusal::EntriesUnordered);
    }
    let spans = routes::circuit_spans(circuits);
    let routes = Routes {
        frame,
        spans: &spans,
    };
    if !routes.keeps_rule9() {
        return Err(Refusal::WrongRoute);
    }
    if !routes.keeps_rule10() {
        return Err(Refusal::EndsTooLate);
    }
    if !(RoutedSheet { frame }).keeps_rule11() {
        return Err(Refusal::WireTaken);
    }
    Ok(())
}

// The first of the numbers 1 to 11 that applies to a sheet's words as they stand, which is how a state holds them. A sheet that the quick pass
// accepts keeps them all; any other is judged rule by rule.
pub fn check_rules(z: &[u32]) -> Result<(), Refusal>
    ensures { number_of result ≡ sheet_verdict z.now }
{
    if accept::accepts(z) {
        return Ok(());
    }
    let frame = check_frame(z)?;
    let circuits = check_circuits(frame)?;
    check_schedules(circuits)
}

// The sheet that no words stand for: an idle network.
pub fn blank_sheet() -> [u32; 7]
    ensures { result ≡ blank_sheet }
{
    [2, 2, 1, 0, 1, 9, 0]
}

// The first of the numbers 1 to 11 that applies to the sheet that handed-over words stand for.
pub fn check_sheet(z: &[u32]) -> Result<(), Refusal>
    ensures { number_of result ≡ sheet_number z.now }
{
    if z.is_empty() { Ok(()) } else { check_rules(z) }
}

// The verdict upon a sheet: the first of 1 to 11 and 26 that applies to what the words stand for.
pub fn verdict(z: &[u32]) -> Result<(), Refusal>
    ensures { number_of result ≡ check_number z.now }
{
    if z.is_empty() {
        return Ok(());
    }
    check_rules(z)?;
    if !sheet::keeps_rule26(z) {
        return Err(Refusal::CircuitUnserved);
    }
    Ok(())
}

// How many schedules the sheet has that handed-over words stand for.
fn schedules_meant(z: &[u32]) -> u32
    ensures { result ≡ schedules (meant z.now) }
{
    if z.is_empty() {
        return 1;
    }
    sheet::schedules_of(z)
}

// Whether the entries of schedule j can be handed back: 1 to 11, then 15 where the schedule does not exist. The call beside entries.
pub fn check_entries(z: &[u32], j: u32) -> Result<(), Refusal>
    ensures { number_of result ≡ entries_number z.now j }
{
    check_sheet(z)?;
    if j >= schedules_meant(z) {
        return Err(Refusal::DoesNotExist);
    }
    Ok(())
}

// The entries of schedule j as that part of the sheet; empty where a number applies, and of no words, whose schedule has none.
pub fn entries(z: &[u32], j: u32) -> &[u32]
    ensures { result.now ≡ entries_part z.now j }
{
    if check_entries(z, j).is_err() || z.is_empty() {
        return &z[0..0];
    }
    sheet::entries_of(z, j)
}
