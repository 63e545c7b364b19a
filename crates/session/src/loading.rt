// Load: a sheet that passes is put into the lent state, and every moving word becomes 0. A refusal writes nothing. No words stand for an
// idle network, whose words the state then holds.
ghost use Rattle.std.specs.Prelude.{◌≡◌, ◌+◌, ◌≤◌, length};
ghost use Rattle.std.proofs.Math.Seq.{paste};
ghost use Rattle.words.specs.Tests.{◌=?◌};
ghost use Rattle.words.specs.Words.{pick};
ghost use Rattle.refusal.specs.Numbers.{number_of};
ghost use Rattle.network.specs.Registers.{state_words, sheet_words};
ghost use Rattle.session.specs.Calls.{load_words_number, loaded, lend, load, number, after};

use crate::Refusal;

// What a load of a sheet's words as they stand is refused for.
fn check_load(sheet: &[u32], s: &[u32], m: &[u32]) -> Result<(), Refusal>
    ensures { number_of result ≡ load_words_number sheet.now s.now m.now }
{
    checker::check_rules(sheet)?;
    if !sheet::keeps_rule26(sheet) {
        return Err(Refusal::CircuitUnserved);
    }
    if s.len() < network::STATE_WORDS {
        return Err(Refusal::StateTooShort);
    }
    if m.len() != sheet::whole_memory_of(sheet) as usize {
        return Err(Refusal::WrongMemory);
    }
    Ok(())
}

// Copies words to a place on, where put_sheet has seen that they fit; std's copy_from_slice would need memmove of whoever links the calls.
fn copy_words(s: &mut [u32], at: usize, from: &[u32])
    requires { at + length from.now ≤ length s.old }
    ensures { s.new ≡ paste s.old at from.now (length from.now) }
{
    for k in 0..from.len() {
        s[at + k] = from[k];
    }
}

// Zeros the moving words, and puts the sheet behind its length; a load that is not refused has room for it.
fn put_sheet(sheet: &[u32], s: &mut [u32])
    requires { (length sheet.now ≤ sheet_words) × (state_words ≤ length s.old) }
    ensures { s.new ≡ loaded sheet.now s.old }
{
    s[..network::MOVING_WORDS].fill(0);
    s[network::MOVING_WORDS] = sheet.len() as u32;
    copy_words(s, network::MOVING_WORDS + 1, sheet);
}

// Loads a sheet's words as they stand; load gives them or those that no words stand for.
fn load_words(sheet: &[u32], s: &mut [u32], m: &[u32]) -> Result<(), Refusal>
    ensures answer { number_of result ≡ load_words_number sheet.now s.old m.now }
    ensures state { s.new ≡ pick (load_words_number sheet.now s.old m.now =? 0) (loaded sheet.now s.old) s.old }
{
    check_load(sheet, s, m)?;
    put_sheet(sheet, s);
    Ok(())
}

// Loads a sheet.
pub fn load(sheet: &[u32], s: &mut [u32], m: &[u32]) -> Result<(), Refusal>
    ensures answer { number_of result ≡ number (load sheet.now) (lend s.old m.now) }
    ensures state { s.new ≡ (after (load sheet.now) (lend s.old m.now)).state }
{
    if sheet.is_empty() {
        let blank = checker::blank_sheet();
        return load_words(&blank, s, m);
    }
    load_words(sheet, s, m)
}
