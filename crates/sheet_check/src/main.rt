// Judges the sheet on standard input: a word with its length, then its words, all little-endian. Prints one line.
#![tactic(auto)]

ghost use Rattle.std.specs.Prelude.{◌≡◌, ◌+◌, ◌*◌, ◌<◌, ◌≤◌, length, take, OnOk, OnErr};
ghost use Rattle.octets.specs.Octets.{word_in};
ghost use Rattle.sheet_check.specs.Line.{line, line_of, sheet_of, verdict_line, text_of, Answered, BrokenOff};
ghost use Rattle.sheet.specs.Rules.{check_number};

use listing::Complaint;
use std::io;
use std::io::{Read, Write};

// Judges the sheet when its words are all there.
fn judged(bytes: &[u8], sheet: &mut [u32]) -> Result<(), Complaint>
    requires { (4 * (1 + length sheet.old) ≤ length bytes.now) × (length sheet.old ≡ word_in bytes.now 0) }
    ensures { line result ≡ verdict_line (check_number (sheet_of bytes.now)) }
{
    octets::read_words(bytes, 1, sheet);
    checker::verdict(sheet).map_err(Complaint::Refused)
}

// Judges an input, of which no more bytes are needed than the largest sheet has.
fn line_for(bytes: &[u8]) -> Result<(), Complaint>
    ensures { line result ≡ line_of bytes.now }
{
    if bytes.len() < 4 {
        return Err(Complaint::InputEnds);
    }
    let count = octets::word_in(bytes, 0);
    if count > sheet::SHEET_WORDS {
        return Err(Complaint::TooLarge);
    }
    let n = count as usize;
    if bytes.len() < 4 * (1 + n) {
        return Err(Complaint::InputEnds);
    }
    let mut words = [0u32; sheet::SHEET_WORDS as usize];
    judged(bytes, &mut words[..n])
}

// The bytes to print for an input, with room for a number lent.
fn answer<'a>(bytes: &[u8], room: &'a mut [u8; 20]) -> &'a [u8]
    ensures { result.now ≡ text_of (line_of bytes.now) }
{
    match line_for(bytes) {
        Ok(()) => b"passes\n",
        Err(complaint) => complaint.line(room),
    }
}

// The bytes of the longest input of which all is needed: a word with the sheet's length, and the longest sheet.
const MOST_BYTES: usize = 4 * (1 + sheet::SHEET_WORDS as usize);

// Reads the input, and hands the bytes of the answer to the writer.
fn respond<R: Read, W: Write>(reader: &mut R, writer: &mut W) -> io::Result<()>
    ensures ok { OnOk result (Answered (R.remaining reader.old) (R.remaining reader.new) (W.contents writer.old) (W.contents writer.new)) }
    ensures err { OnErr result (BrokenOff (R.remaining reader.old) (R.remaining reader.new) (W.contents writer.old) (W.contents writer.new)) }
{
    let mut bytes = [0u8; MOST_BYTES];
    let n = streams::read_full(reader, &mut bytes)?;
    let mut room = [0u8; 20];
    let text = answer(&bytes[..n], &mut room);
    streams::write_whole(writer, text)
}

fn main(rt: HostRuntime) -> io::Result<()> {
    respond(&mut rt.stdin(), &mut rt.stdout())
}
