// Exported calls for tests, benchmarks and hosts in C or Rust: a slice is a pointer and then a length. They have the session's answers as
// numbers (specs/Packed.antt) and its contracts.
#![tactic(auto)]

ghost use Rattle.std.specs.Prelude.{◌≡◌, ◌*◌, length};
ghost use Rattle.sheet.specs.Rules.{check_number};
ghost use Rattle.checker.specs.Answers.{entries_number};
ghost use Rattle.network.specs.Registers.{state_words};
ghost use Rattle.session.specs.Calls.{lend, lend_state, load, start, start_all, store, order, cycle, number, after, answers_after};
ghost use Rattle.session.specs.Answers.{fetch_answer, left_answer, period_answer, landed_answer};
ghost use Rattle.batch.specs.Lists.{start_lists_number, lists_state, lists_answers};
ghost use Rattle.timetable.specs.Timetable.{hours_answer};
ghost use Rattle.refusal.specs.Numbers.{numbered};
ghost use Rattle.exports.specs.Packed.{packed, entries_place, entries_field, chosen, packed_found, packed_landed, hours_field, packed_hours};

use session::{Landed, Refusal, Transfer, number_of};
use timetable::Hours;

// The verdict upon a sheet: 0 where it passes, else the number of its refusal.
#[unsafe(no_mangle)]
pub extern "C" fn argo_verdict(sheet: &[u32]) -> u32
    ensures { result ≡ check_number sheet.now }
{
    number_of(checker::verdict(sheet))
}

// The place in the sheet of a schedule's first entry; entries_field asks only where the number is 0.
fn entries_place(sheet: &[u32], schedule: u32) -> usize
    requires { entries_number sheet.now schedule ≡ 0 }
    ensures { result ≡ entries_place sheet.now schedule }
{
    if sheet.is_empty() {
        return 0;
    }
    sheet::schedule_place(sheet, schedule) + 2
}

// A field of a schedule's entries: the place of their first word in the sheet, or how many words are handed back. argo_entries asks only
// where the number is 0, which meets the requires.
#[tactic(auto, using(session::proofs::AnswerLaws::numbers), unfolding(crate::specs::Packed::entries_field))]
fn entries_field(sheet: &[u32], schedule: u32, field: u32) -> u64
    requires { entries_number sheet.now schedule ≡ 0 }
    ensures { result ≡ entries_field sheet.now schedule field }
{
    match field {
        0 => entries_place(sheet, schedule) as u64,
        1 => checker::entries(sheet, schedule).len() as u64,
        _ => 0,
    }
}

// A field of one schedule's entries, as the part of the sheet that is handed back.
#[tactic(auto, using(session::proofs::AnswerLaws::numbers), unfolding(crate::specs::Packed::packed))]
#[unsafe(no_mangle)]
pub extern "C" fn argo_entries(sheet: &[u32], schedule: u32, field: u32) -> u64
    ensures { result ≡ packed (entries_number sheet.now schedule) (entries_field sheet.now schedule field) }
{
    match checker::check_entries(sheet, schedule) {
        Ok(()) => entries_field(sheet, schedule, field),
        Err(refusal) => packed_found(Err(refusal)),
    }
}

// The published length of the state.
#[unsafe(no_mangle)]
pub extern "C" fn argo_state_words() -> u32
    ensures { result ≡ state_words }
{
    network::STATE_WORDS as u32
}

// A word, or a refusal's number above it.
fn packed_found(found: Result<u32, Refusal>) -> u64
    ensures { result ≡ packed_found (numbered found) }
{
    match found {
        Ok(word) => u64::from(word),
        Err(refusal) => u64::from(refusal.number()) * 4294967296,
    }
}

// A field of a landing that is there; hosts in C name it by a number, here and in the calls below.
#[tactic(auto, using(session::proofs::AnswerLaws::numbers), unfolding(crate::specs::Packed::chosen))]
fn chosen_field(field: u32, landed: Landed) -> u32
    ensures { result ≡ chosen field landed.kind landed.address landed.word }
{
    match field {
        0 => 1,
        1 => landed.kind,
        2 => landed.address,
        3 => landed.word,
        _ => 0,
    }
}

// A field of what landed, or a refusal's number above it.
fn packed_landed(field: u32, what: Result<Option<Landed>, Refusal>) -> u64
    ensures { result ≡ packed_landed field (numbered what) }
{
    packed_found(what.map(|landed| landed.map_or(0, |word| chosen_field(field, word))))
}

// Loads a sheet into a state, for a memory.
#[unsafe(no_mangle)]
pub extern "C" fn argo_load(sheet: &[u32], state: &mut [u32], memory: &[u32]) -> u32
    ensures answer { result ≡ number (load sheet.now) (lend state.old memory.now) }
    ensures state { state.new ≡ (after (load sheet.now) (lend state.old memory.now)).state }
{
    number_of(session::load(sheet, state, memory))
}

// Starts a transfer on a circuit.
#[unsafe(no_mangle)]
pub extern "C" fn argo_start(
    state: &mut [u32],
    circuit: u32,
    read: u32,
    write: u32,
    count: u32,
    kind: u32,
) -> u32
    ensures answer { result ≡ number (start circuit read write count kind) (lend_state state.old) }
    ensures state { state.new ≡ (after (start circuit read write count kind) (lend_state state.old)).state }
{
    number_of(session::start(state, circuit, read, write, count, kind))
}

// Starts the transfers of a list, one after another: a number for each, or one for the list.
#[unsafe(no_mangle)]
pub extern "C" fn argo_start_all(
    state: &mut [u32],
    transfers: &[Transfer],
    answers: &mut [u32],
) -> u32
    ensures answer { result ≡ number (start_all transfers.now (length answers.old)) (lend_state state.old) }
    ensures state { state.new ≡ (after (start_all transfers.now (length answers.old)) (lend_state state.old)).state }
    ensures answers { answers.new ≡ answers_after state.old transfers.now answers.old }
{
    number_of(batch::start_all(state, transfers, answers))
}

// The same of five lists of words, for hosts without structs.
#[unsafe(no_mangle)]
pub extern "C" fn argo_start_lists(
    state: &mut [u32],
    circuits: &[u32],
    reads: &[u32],
    writes: &[u32],
    counts: &[u32],
    kinds: &[u32],
    answers: &mut [u32],
) -> u32
    ensures answer { result ≡ start_lists_number
        circuits.now reads.now writes.now counts.now kinds.now
        state.old (length answers.old) }
    ensures state { state.new ≡ lists_state
        circuits.now reads.now writes.now counts.now kinds.now
        state.old (length answers.old) }
    ensures answers { answers.new ≡ lists_answers
        circuits.now reads.now writes.now counts.now kinds.now
        state.old answers.old }
{
    number_of(batch::start_lists(state, circuits, reads, writes, counts, kinds, answers))
}

// Stores a word at a node's address.
#[unsafe(no_mangle)]
pub extern "C" fn argo_store(
    state: &[u32],
    memory: &mut [u32],
    node: u32,
    address: u32,
    word: u32,
) -> u32
    ensures answer { result ≡ number (store node address word) (lend state.now memory.old) }
    ensures memory { memory.new ≡ (after (store node address word) (lend state.now memory.old)).memory }
{
    number_of(session::store(state, memory, node, address, word))
}

// The word at a node's address.
#[unsafe(no_mangle)]
pub extern "C" fn argo_fetch(state: &[u32], memory: &[u32], node: u32, address: u32) -> u64
    ensures { result ≡ packed_found (fetch_answer (lend state.now memory.now) node address) }
{
    packed_found(session::fetch(state, memory, node, address))
}

// How many words of a circuit's transfer are left.
#[unsafe(no_mangle)]
pub extern "C" fn argo_words_left(state: &[u32], circuit: u32) -> u64
    ensures { result ≡ packed_found (left_answer (lend_state state.now) circuit) }
{
    packed_found(session::words_left(state, circuit))
}

// The number of the present period.
#[unsafe(no_mangle)]
pub extern "C" fn argo_period_number(state: &[u32]) -> u64
    ensures { result ≡ packed_found (period_answer (lend_state state.now)) }
{
    packed_found(session::period_number(state))
}

// A field of what landed at a node in the last cycle.
#[unsafe(no_mangle)]
pub extern "C" fn argo_landed(state: &[u32], node: u32, field: u32) -> u64
    ensures { result ≡ packed_landed field (landed_answer (lend_state state.now) node) }
{
    packed_landed(field, session::what_landed(state, node))
}

// Orders a schedule for a period.
#[unsafe(no_mangle)]
pub extern "C" fn argo_order(state: &mut [u32], schedule: u32, period: u32) -> u32
    ensures answer { result ≡ number (order schedule period) (lend_state state.old) }
    ensures state { state.new ≡ (after (order schedule period) (lend_state state.old)).state }
{
    number_of(session::order(state, schedule, period))
}

// One clock cycle.
#[unsafe(no_mangle)]
pub extern "C" fn argo_cycle(state: &mut [u32], memory: &mut [u32]) -> u32
    ensures answer { result ≡ number cycle (lend state.old memory.old) }
    ensures state { state.new ≡ (after cycle (lend state.old memory.old)).state }
    ensures memory { memory.new ≡ (after cycle (lend state.old memory.old)).memory }
{
    number_of(session::cycle(state, memory))
}

// A field of the hours of a minute.
#[tactic(auto, using(session::proofs::AnswerLaws::numbers), unfolding(crate::specs::Packed::hours_field))]
fn hours_field(field: u32, schedule: u32, changes: u32, minute: u32) -> u32
    ensures { result ≡ hours_field field schedule changes minute }
{
    match field {
        0 => schedule,
        1 => changes,
        2 => minute,
        _ => 0,
    }
}

// A field of a timetable's answer, or a refusal's number above it.
fn packed_hours(field: u32, hours: Result<Hours, Refusal>) -> u64
    ensures { result ≡ packed_hours field (numbered hours) }
{
    packed_found(hours.map(|hours| match hours {
        Hours::Until { schedule, minute } => hours_field(field, schedule, 1, minute),
        Hours::Always(schedule) => hours_field(field, schedule, 0, 0),
    }))
}

// A field of the hours of a minute by a weekly timetable; it needs no sheet and no state.
#[unsafe(no_mangle)]
pub extern "C" fn argo_hours(list: &[u32], minute: u32, field: u32) -> u64
    ensures { result ≡ packed_hours field (hours_answer list.now minute) }
{
    packed_hours(field, timetable::mode_at(list, minute))
}
