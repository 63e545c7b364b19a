// The text of a listing of landings, put into a buffer of bytes from a place on.
#![tactic(auto)]

mod complaint;

ghost use Rattle.std.specs.Prelude.{◌≡◌, ◌+◌, ◌≤◌, length, take};
ghost use Rattle.words.specs.Inner.Puts.{put_all};
ghost use Rattle.listing.specs.Text.{field, landing_line};

pub use complaint::Complaint;

const SPACE: u8 = b' ';

const LINE_END: u8 = b'\n';

// Puts a word in decimal with what ends it, and answers the place behind; put_line has seen that the longest fits.
pub fn put_field(buffer: &mut [u8], at: usize, n: u32, end: u8) -> usize
    requires { at + 12 ≤ length buffer.old }
    ensures place { result ≡ at + length (field n end) }
    ensures bytes { buffer.new ≡ put_all buffer.old at (field n end) }
{
    let mut digits = itoa::Buffer::new();
    let text = digits.format(n).as_bytes();
    let end_at = at + text.len();
    buffer[at..end_at].copy_from_slice(text);
    buffer[end_at] = end;
    end_at + 1
}

// Puts a landing's line, and answers the place behind; a program that leaves 60 bytes for each line meets the requires.
#[tactic(auto, using(crate::proofs::TextLaws::field_short))]
pub fn put_line(
    buffer: &mut [u8],
    at: usize,
    cycle: u32,
    node: u32,
    address: u32,
    word: u32,
    kind: u32,
) -> usize
    requires { at + 60 ≤ length buffer.old }
    ensures place { result ≡ at + length (landing_line cycle node address word kind) }
    ensures bytes { buffer.new ≡ put_all buffer.old at (landing_line cycle node address word kind) }
{
    let node_at = put_field(buffer, at, cycle, SPACE);
    let address_at = put_field(buffer, node_at, node, SPACE);
    let word_at = put_field(buffer, address_at, address, SPACE);
    let kind_at = put_field(buffer, word_at, word, SPACE);
    put_field(buffer, kind_at, kind, LINE_END)
}
