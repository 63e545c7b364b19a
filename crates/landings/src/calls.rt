// The calls before the cycles: the load, and the starts of the input's transfers, up to the first refusal.
ghost use Rattle.std.specs.Prelude.{◌≡◌, ◌+◌, ◌*◌, ◌≤◌, length};
ghost use Rattle.refusal.specs.Numbers.{number_of};
ghost use Rattle.session.specs.Calls.{state_number, lend_state, number, after};
ghost use Rattle.landings.specs.Input.{sheet_of, memory_size, memory_of, transfers_place, transfers};
ghost use Rattle.landings.specs.Messages.{Runs, input_message, start_at, starts_on, calls_on, calls, refusal_of, message};
ghost use Rattle.landings.specs.Inner.Pages.{Lendable};

use octets::word_in;
use refusal::Refusal;
use session::Transfer;

// Starts the transfer whose five words stand at a place; start_all has seen that they are there, and its state is sound.
fn start_transfer(bytes: &[u8], at: usize, s: &mut [u32]) -> Result<(), Refusal>
    requires { (state_number s.old ≡ 0) × (4 * (at + 5) ≤ length bytes.now) }
    ensures number { number_of result ≡ number (start_at bytes.now at) (lend_state s.old) }
    ensures state { s.new ≡ (after (start_at bytes.now at) (lend_state s.old)).state }
{
    let transfer = Transfer {
        circuit: word_in(bytes, at),
        read: word_in(bytes, at + 1),
        write: word_in(bytes, at + 2),
        count: word_in(bytes, at + 3),
        kind: word_in(bytes, at + 4),
    };
    session::start_sound(s, transfer)
}

// Starts the transfers of a loaded session in order, up to the first that is refused; call_all has seen that all are there.
fn start_all(bytes: &[u8], at: usize, count: u32, s: &mut [u32]) -> Result<(), Refusal>
    requires { (at ≡ transfers_place bytes.now) × (count ≡ transfers bytes.now) × (count ≤ 64) × (4 * (at + 1 + 5 * count) ≤ length bytes.now) × (state_number s.old ≡ 0) }
    ensures number { number_of result ≡ (starts_on bytes.now s.old count).refusal }
    ensures state { s.new ≡ (starts_on bytes.now s.old count).state }
{
    for k in 0..count as usize {
        start_transfer(bytes, at + 1 + 5 * k, s)?;
    }
    Ok(())
}

// Loads the sheet and starts the transfers; prepare lends what check_input let pass.
fn call_all(bytes: &[u8], sheet: &[u32], s: &mut [u32], m: &[u32]) -> Result<(), Refusal>
    requires { (input_message bytes.now ≡ Runs) × (sheet.now ≡ sheet_of bytes.now) × (length m.now ≡ memory_size bytes.now) }
    ensures number { number_of result ≡ (calls_on bytes.now s.old m.now).refusal }
    ensures state { s.new ≡ (calls_on bytes.now s.old m.now).state }
{
    session::load(sheet, s, m)?;
    let at = 1 + sheet.len() + m.len();
    start_all(bytes, at, word_in(bytes, at), s)
}

// Fills the memories, then loads and starts; where nothing is refused, the cycles may run. The program lends a state of zeros and so much
// room for the memories, once check_input let all pass.
pub fn prepare(bytes: &[u8], sheet: &[u32], s: &mut [u32], m: &mut [u32]) -> Result<(), Refusal>
    requires { Lendable bytes.now sheet.now s.old m.old }
    ensures message { refusal_of (number_of result) ≡ message bytes.now }
    ensures state { s.new ≡ (calls bytes.now).state }
    ensures memory { m.new ≡ memory_of bytes.now }
{
    octets::read_words(bytes, 1 + sheet.len(), m);
    call_all(bytes, sheet, s, m)
}
