// The calls that only read, and the numbers 12 to 15 that they share with the others (document 01, "Refusals, in checking order").
ghost use Rattle.std.specs.Prelude.{◌≡◌, ◌+◌, ◌*◌};
ghost use Rattle.refusal.specs.Numbers.{number_of, numbered};
ghost use Rattle.sheet.specs.Sheet.{nodes};
ghost use Rattle.network.specs.Registers.{sheet_in, room};
ghost use Rattle.session.specs.Calls.{state_number, memory_number, place_number, last_landing, lend, lend_state};
ghost use Rattle.session.specs.Answers.{shown, left_answer, fetch_answer, period_answer, landed_answer};

use crate::{Landed, Refusal};

// 12 or 13, which every call but load tests first.
#[tactic(auto, using(crate::proofs::AnswerLaws::numbers), unfolding(crate::specs::Calls::state_number))]
pub fn check_state(s: &[u32]) -> Result<(), Refusal>
    ensures { number_of result ≡ state_number s.now }
{
    if s.len() < network::STATE_WORDS {
        return Err(Refusal::StateTooShort);
    }
    if !soundness::is_sound(s) {
        return Err(Refusal::StateUnsound);
    }
    Ok(())
}

// How many nodes the sheet of a state has that passed 12 and 13. That it passed is asked by `requires`, here and below: the calls that write ask
// the same of words that are lent to them as `&mut`, which a struct that keeps the fact could not lend to these.
fn nodes_of(s: &[u32]) -> u32
    requires { state_number s.now ≡ 0 }
    ensures { result ≡ nodes (sheet_in s.now) }
{
    sheet::nodes_of(network::sheet_of(s))
}

// Memory words of a node.
pub fn room_of(s: &[u32]) -> u32
    ensures { result ≡ room s.now }
{
    sheet::memory_of(network::sheet_of(s))
}

// Memory words of all nodes.
fn memory_words(s: &[u32]) -> u32
    requires { state_number s.now ≡ 0 }
    ensures { result ≡ nodes (sheet_in s.now) * room s.now }
{
    sheet::whole_memory_of(network::sheet_of(s))
}

// 12 to 14, where memory is lent too.
#[tactic(auto, using(crate::proofs::AnswerLaws::numbers), unfolding(crate::specs::Calls::memory_number))]
pub fn check_memory(s: &[u32], m: &[u32]) -> Result<(), Refusal>
    ensures { number_of result ≡ memory_number s.now m.now }
{
    check_state(s)?;
    if m.len() != memory_words(s) as usize {
        return Err(Refusal::WrongMemory);
    }
    Ok(())
}

// 12 to 14, and 15 where the node or the address does not exist.
#[tactic(auto, using(crate::proofs::AnswerLaws::numbers), unfolding(crate::specs::Calls::place_number))]
pub fn check_place(s: &[u32], m: &[u32], node: u32, address: u32) -> Result<(), Refusal>
    ensures { number_of result ≡ place_number s.now m.now node address }
{
    check_memory(s, m)?;
    if node >= nodes_of(s) || address >= room_of(s) {
        return Err(Refusal::DoesNotExist);
    }
    Ok(())
}

// Where the memories hold a node's address; the product of two words fits 64 bits, so that it cannot wrap.
pub fn place_of(s: &[u32], node: u32, address: u32) -> usize
    ensures { result ≡ node * room s.now + address }
{
    (node as usize) * (room_of(s) as usize) + (address as usize)
}

// How many words of a circuit's transfer are left.
#[tactic(auto, using(crate::proofs::AnswerLaws::numbers), unfolding(crate::specs::Calls::left_number, crate::specs::Calls::words_left))]
pub fn words_left(s: &[u32], circuit: u32) -> Result<u32, Refusal>
    ensures { numbered result ≡ left_answer (lend_state s.now) circuit }
{
    check_state(s)?;
    if circuit >= sheet::circuits_of(network::sheet_of(s)) {
        return Err(Refusal::DoesNotExist);
    }
    Ok(network::reg(s, network::LEFT_ROW, circuit))
}

// The number of the present period.
#[tactic(auto, using(crate::proofs::AnswerLaws::numbers), unfolding(crate::specs::Calls::period_number_in))]
pub fn period_number(s: &[u32]) -> Result<u32, Refusal>
    ensures { numbered result ≡ period_answer (lend_state s.now) }
{
    check_state(s)?;
    Ok(network::reg(s, network::CLOCK_ROW, network::NUMBER_PLACE))
}

// The landing that a node's registers hold: what landed, where the node exists. Loops of ours that know their state sound ask this.
#[tactic(auto, using(crate::proofs::AnswerLaws::numbers), unfolding(crate::specs::Calls::last_landing))]
pub fn landing_at(s: &[u32], node: u32) -> Option<Landed>
    ensures { result ≡ shown (last_landing s.now node) }
{
    if network::reg(s, network::LANDING_MARK, node) == 0 {
        return None;
    }
    Some(Landed {
        kind: network::reg(s, network::LANDING_KIND, node),
        address: network::reg(s, network::LANDING_ADDRESS, node),
        word: network::reg(s, network::LANDING_WORD, node),
    })
}

// What landed at a node in the last cycle.
#[tactic(auto, using(crate::proofs::AnswerLaws::numbers), unfolding(crate::specs::Calls::landed_number))]
pub fn what_landed(s: &[u32], node: u32) -> Result<Option<Landed>, Refusal>
    ensures { numbered result ≡ landed_answer (lend_state s.now) node }
{
    check_state(s)?;
    if node >= nodes_of(s) {
        return Err(Refusal::DoesNotExist);
    }
    Ok(landing_at(s, node))
}

// The word at a node's address.
#[tactic(auto, using(crate::proofs::AnswerLaws::numbers), unfolding(crate::specs::Calls::fetched))]
pub fn fetch(s: &[u32], m: &[u32], node: u32, address: u32) -> Result<u32, Refusal>
    ensures { numbered result ≡ fetch_answer (lend s.now m.now) node address }
{
    check_place(s, m, node, address)?;
    Ok(words::get(m, place_of(s, node, address)))
}
