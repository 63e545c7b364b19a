// What the input says before anything is run: what the program complains of, or that its words are all there.
ghost use Rattle.std.specs.Prelude.{◌≡◌, ◌+◌, ◌*◌, ◌<◌, ◌≤◌, length};
ghost use Rattle.sheet.specs.Sheet.{meant, nodes, memory_words, sheet_words};
ghost use Rattle.sheet.specs.Rules.{sheet_number};
ghost use Rattle.landings.specs.Input.{most_memory, most_transfers, stated_length, memory_place, memory_size, transfers_place, cycles_place, cycles_asked};
ghost use Rattle.landings.specs.Messages.{Runs, said, cycles_message, transfers_message, memory_message, checked_message, input_message};

use listing::Complaint;

const MOST_MEMORY: u32 = 4096;

const MOST_TRANSFERS: u32 = 64;

const MOST_CYCLES: u32 = 65536;

// The bytes of the longest input that is taken: three words that count, the sheet, the memories, and five words a transfer.
pub const MOST_BYTES: usize = 4
    * (3 + (sheet::SHEET_WORDS + MOST_MEMORY + 5 * MOST_TRANSFERS) as usize);

// The cycles' word, at its place, which check_transfers has reckoned.
fn check_cycles(bytes: &[u8], at: usize) -> Result<(), Complaint>
    requires { (at ≡ cycles_place bytes.now) × (at ≤ 2 + sheet_words + most_memory + 5 * most_transfers) }
    ensures { said result ≡ cycles_message bytes.now }
{
    if bytes.len() < 4 * (at + 1) {
        return Err(Complaint::InputEnds);
    }
    if octets::word_in(bytes, at) > MOST_CYCLES {
        return Err(Complaint::TooLarge);
    }
    Ok(())
}

// The number of transfers, at its place, which check_memory has reckoned.
fn check_transfers(bytes: &[u8], at: usize) -> Result<(), Complaint>
    requires { (at ≡ transfers_place bytes.now) × (at ≤ 1 + sheet_words + most_memory) }
    ensures { said result ≡ transfers_message bytes.now }
{
    if bytes.len() < 4 * (at + 1) {
        return Err(Complaint::InputEnds);
    }
    let count = octets::word_in(bytes, at);
    if count > MOST_TRANSFERS {
        return Err(Complaint::TooLarge);
    }
    check_cycles(bytes, at + 1 + 5 * (count as usize))
}

// The memories' size, worked out by check_sheet from a sheet that passes.
fn check_memory(bytes: &[u8], at: usize, size: u32) -> Result<(), Complaint>
    requires { (at ≡ memory_place bytes.now) × (at ≤ 1 + sheet_words) × (size ≡ memory_size bytes.now) }
    ensures { said result ≡ memory_message bytes.now }
{
    if size > MOST_MEMORY {
        return Err(Complaint::TooLarge);
    }
    check_transfers(bytes, at + size as usize)
}

// Memory words of all nodes; the callers' sheet has passed the checker, and so keeps 1 to 11.
pub fn memory_size(sheet: &[u32]) -> u32
    requires { sheet_number sheet.now ≡ 0 }
    ensures { result ≡ nodes (meant sheet.now) * memory_words (meant sheet.now) }
{
    if sheet.is_empty() {
        return 4;
    }
    sheet::whole_memory_of(sheet)
}

// The checker's verdict upon a sheet whose words are all there, and what follows; check_input lends room for the sheet.
fn check_sheet(bytes: &[u8], sheet: &mut [u32]) -> Result<(), Complaint>
    requires { (4 * (1 + length sheet.old) ≤ length bytes.now) × (length sheet.old ≡ stated_length bytes.now) × (length sheet.old ≤ sheet_words) }
    ensures { said result ≡ checked_message bytes.now }
{
    octets::read_words(bytes, 1, sheet);
    checker::verdict(sheet)?;
    let size = memory_size(sheet);
    check_memory(bytes, 1 + sheet.len(), size)
}

// What an input earns instead of a listing, as far as it is read before the load.
// What passes is no struct that keeps the fact: each clause about the input's bytes, which most are, would read them through it.
pub fn check_input(bytes: &[u8]) -> Result<(), Complaint>
    ensures { said result ≡ input_message bytes.now }
{
    if bytes.len() < 4 {
        return Err(Complaint::InputEnds);
    }
    let count = octets::word_in(bytes, 0);
    if count > sheet::SHEET_WORDS {
        return Err(Complaint::TooLarge);
    }
    let n = count as usize;
    if bytes.len() < 4 * (1 + n) {
        return Err(Complaint::InputEnds);
    }
    let mut sheet = [0u32; sheet::SHEET_WORDS as usize];
    check_sheet(bytes, &mut sheet[..n])
}

// How many nodes a sheet has that keeps 1 to 11, as the callers' does.
pub fn nodes_of(sheet: &[u32]) -> u32
    requires { sheet_number sheet.now ≡ 0 }
    ensures { (result ≡ nodes (meant sheet.now)) × (result ≤ 16) }
{
    if sheet.is_empty() {
        return 4;
    }
    sheet::nodes_of(sheet)
}

// The cycles of an input whose words are all there, behind its transfers, which begin at a place.
pub fn cycles_in(bytes: &[u8], at: usize) -> u32
    requires { (input_message bytes.now ≡ Runs) × (at ≡ transfers_place bytes.now) }
    ensures { result ≡ cycles_asked bytes.now }
{
    octets::word_in(bytes, at + 1 + 5 * (octets::word_in(bytes, at) as usize))
}
