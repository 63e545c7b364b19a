// The calls that write without a cycle: store, order and start. A refusal writes nothing.
ghost use Rattle.std.specs.Prelude.{◌≡◌};
ghost use Rattle.refusal.specs.Numbers.{number_of};
ghost use Rattle.session.specs.Calls.{state_number, order_number, ordered, start_named, start_fits, is_busy, transfer_number, started_by, as_start, lend, lend_state, start, store, order, number, after};

use crate::reading::{check_place, check_state, place_of, room_of};
use crate::{Refusal, Transfer};
use network::{put_reg, reg};
use sheet::Circuit;

// Stores a word at a node's address.
pub fn store(s: &[u32], m: &mut [u32], node: u32, address: u32, word: u32) -> Result<(), Refusal>
    ensures answer { number_of result ≡ number (store node address word) (lend s.now m.old) }
    ensures memory { m.new ≡ (after (store node address word) (lend s.now m.old)).memory }
{
    check_place(s, m, node, address)?;
    words::put(m, place_of(s, node, address), word);
    Ok(())
}

// What an order is refused for; the period's distance wraps as the period number does.
#[tactic(auto, using(crate::proofs::AnswerLaws::numbers), unfolding(crate::specs::Calls::order_number, crate::specs::Calls::is_pending, crate::specs::Calls::ahead))]
pub fn check_order(s: &[u32], schedule: u32, period: u32) -> Result<(), Refusal>
    ensures { number_of result ≡ order_number s.now schedule period }
{
    check_state(s)?;
    if schedule >= sheet::schedules_of(network::sheet_of(s)) {
        return Err(Refusal::DoesNotExist);
    }
    if reg(s, network::CLOCK_ROW, network::ORDER_MARK_PLACE) != 0 {
        return Err(Refusal::OrderPending);
    }
    let ahead = period.wrapping_sub(reg(s, network::CLOCK_ROW, network::NUMBER_PLACE));
    if ahead < 3 || ahead >= 2147483648 {
        return Err(Refusal::PeriodNotAhead);
    }
    Ok(())
}

// Sets the order's three registers.
#[tactic(auto, unfolding(crate::specs::Calls::ordered))]
fn put_order(s: &mut [u32], schedule: u32, period: u32)
    ensures { s.new ≡ ordered s.old schedule period }
{
    put_reg(s, network::CLOCK_ROW, network::ORDER_MARK_PLACE, 1);
    put_reg(
        s,
        network::CLOCK_ROW,
        network::ORDER_SCHEDULE_PLACE,
        schedule,
    );
    put_reg(s, network::CLOCK_ROW, network::ORDER_PERIOD_PLACE, period);
}

// Orders a schedule for a period.
pub fn order(s: &mut [u32], schedule: u32, period: u32) -> Result<(), Refusal>
    ensures answer { number_of result ≡ number (order schedule period) (lend_state s.old) }
    ensures state { s.new ≡ (after (order schedule period) (lend_state s.old)).state }
{
    check_order(s, schedule, period)?;
    put_order(s, schedule, period);
    Ok(())
}

// The circuit, both addresses and the kind of a start exist.
#[tactic(auto, using(crate::proofs::AnswerLaws::numbers), unfolding(crate::specs::Calls::start_named))]
fn start_named(s: &[u32], t: Transfer) -> bool
    ensures { result ≡ start_named s.now t.circuit t.read t.write t.kind }
{
    let room = room_of(s);
    t.circuit < sheet::circuits_of(network::sheet_of(s))
        && t.read < room
        && t.write < room
        && soundness::kind_travels(t.kind)
}

// The count of a start suits its kind, and so many words lie in both of the circuit's regions.
#[tactic(auto, using(crate::proofs::AnswerLaws::numbers), unfolding(crate::specs::Calls::start_fits))]
fn start_fits(s: &[u32], t: Transfer) -> bool
    ensures { result ≡ start_fits s.now t.circuit t.read t.write t.count t.kind }
{
    let regions = Circuit::at(network::sheet_of(s), t.circuit);
    1 <= t.count
        && soundness::unless_data(t.kind, t.count == 1)
        && soundness::lies_in(regions.read, t.read, t.count)
        && soundness::lies_in(regions.receive, t.write, t.count)
}

// A circuit of a state that has passed 12 and 13 has words that were not sent or have not landed.
#[tactic(auto, using(crate::proofs::AnswerLaws::numbers), unfolding(crate::specs::Calls::is_busy))]
fn is_busy(s: &[u32], circuit: u32) -> bool
    requires { state_number s.now ≡ 0 }
    ensures { result ≡ is_busy s.now circuit }
{
    reg(s, network::LEFT_ROW, circuit) != 0 || inbound::is_inbound(s, circuit)
}

// What a start is refused for on a state that has passed 12 and 13.
#[tactic(auto, using(crate::proofs::AnswerLaws::numbers), unfolding(crate::specs::Calls::start_number))]
fn check_start(s: &[u32], t: Transfer) -> Result<(), Refusal>
    requires { state_number s.now ≡ 0 }
    ensures { number_of result ≡ transfer_number s.now t }
{
    if !start_named(s, t) {
        return Err(Refusal::DoesNotExist);
    }
    if !start_fits(s, t) {
        return Err(Refusal::WrongCount);
    }
    if is_busy(s, t.circuit) {
        return Err(Refusal::CircuitBusy);
    }
    Ok(())
}

// Sets the four registers of a circuit's transfer.
#[tactic(auto, unfolding(crate::specs::Calls::started))]
fn put_start(s: &mut [u32], t: Transfer)
    ensures { s.new ≡ started_by s.old t }
{
    put_reg(s, network::LEFT_ROW, t.circuit, t.count);
    put_reg(s, network::READ_ROW, t.circuit, t.read);
    put_reg(s, network::WRITE_ROW, t.circuit, t.write);
    put_reg(s, network::KIND_ROW, t.circuit, t.kind);
}

// Starts a transfer on a state that has passed 12 and 13, which a start that is carried out leaves so (sound-kept): loops of ours begin with
// a state that passed and need not test it again.
pub fn start_sound(s: &mut [u32], t: Transfer) -> Result<(), Refusal>
    requires { state_number s.old ≡ 0 }
    ensures answer { number_of result ≡ number (as_start t) (lend_state s.old) }
    ensures state { s.new ≡ (after (as_start t) (lend_state s.old)).state }
{
    check_start(s, t)?;
    put_start(s, t);
    Ok(())
}

// Starts a transfer on a circuit. Its words stay apart, since this is the call as hosts make it.
pub fn start(
    s: &mut [u32],
    circuit: u32,
    read: u32,
    write: u32,
    count: u32,
    kind: u32,
) -> Result<(), Refusal>
    ensures answer { number_of result ≡ number (start circuit read write count kind) (lend_state s.old) }
    ensures state { s.new ≡ (after (start circuit read write count kind) (lend_state s.old)).state }
{
    check_state(s)?;
    start_sound(
        s,
        Transfer {
            circuit,
            read,
            write,
            count,
            kind,
        },
    )
}
