// Runs the session of standard input, and lists what landed, cycle by cycle (document 01, "The key's examples").
#![tactic(auto)]

mod calls;
mod input;
mod output;
mod pages;

ghost use Rattle.std.specs.Prelude.{◌≡◌, ◌+◌, ◌≤◌, length, drop, OnOk, OnErr};
ghost use Rattle.std.specs.Io.KnownBytes.{Appends};
ghost use Rattle.session.specs.Calls.{lend};
ghost use Rattle.listing.specs.Complaints.{complaint_line};
ghost use Rattle.landings.specs.Input.{stated_length, sheet_of};
ghost use Rattle.landings.specs.Messages.{Runs, input_message};
ghost use Rattle.landings.specs.Lines.{cycles_on};
ghost use Rattle.landings.specs.Output.{heading, before_cycles, printout, HasAt, Answered, BrokenOff};
ghost use Rattle.streams.specs.Written.{GotPart};
ghost use Rattle.landings.specs.Inner.Ended.{cycles_listed, at_end, Halted};
ghost use Rattle.landings.specs.Inner.Pages.{ReadyToList, Lendable};

use listing::Complaint;
use output::write_part;
use std::io;
use std::io::{Read, Write};

// Prints the line of a complaint, where the output has it.
fn print_complaint<W: Write>(
    writer: &mut W,
    bytes: &[u8],
    place: &mut usize,
    complaint: Complaint,
) -> io::Result<()>
    requires { HasAt (printout bytes.now) place.old (complaint_line complaint) }
    ensures place { place.new ≡ place.old + length (complaint_line complaint) }
    ensures written { OnOk result (Appends (W.contents writer.old) (W.contents writer.new) (complaint_line complaint)) }
    ensures err { OnErr result (GotPart (W.contents writer.old) (W.contents writer.new) (complaint_line complaint)) }
{
    let mut room = [0u8; 20];
    write_part(writer, bytes, place, complaint.line(&mut room))
}

// Runs the cycles and writes their lines, page by page, behind the heading, which `list` has written; a refusal ends them.
fn write_pages<W: Write>(
    writer: &mut W,
    bytes: &[u8],
    place: &mut usize,
    s: &mut [u32],
    m: &mut [u32],
    nodes: u32,
    last: u32,
    buffer: &mut [u8],
) -> io::Result<()>
    requires { (ReadyToList bytes.now s.old m.old nodes last) × (place.old ≡ length heading) × (length buffer.old ≡ 65536) }
    ensures place { OnOk result (place.new ≡ length (printout bytes.now)) }
    ensures words { OnOk result (lend s.new m.new ≡ cycles_on (cycles_listed bytes.now) (before_cycles bytes.now)) }
    ensures written { OnOk result (Appends (W.contents writer.old) (W.contents writer.new) (drop (length heading) (printout bytes.now))) }
    ensures err { OnErr result (Halted bytes.now place.new (lend s.new m.new)) }
    ensures stopped { OnErr result (GotPart (W.contents writer.old) (W.contents writer.new) (drop (length heading) (printout bytes.now))) }
{
    let mut time: u32 = 0;
    // A page has as many cycles as fit, so no range counts them.
    while time < last {
        let page = pages::fill(s, m, nodes, time, last, buffer);
        write_part(writer, bytes, place, &buffer[..page.place])?;
        if let Err(refusal) = page.end {
            return print_complaint(writer, bytes, place, Complaint::Refused(refusal));
        }
        time += page.cycles;
    }
    Ok(())
}

// Prints the listing of all cycles; run_session has loaded and started.
fn list<W: Write>(
    writer: &mut W,
    bytes: &[u8],
    place: &mut usize,
    s: &mut [u32],
    m: &mut [u32],
    nodes: u32,
    last: u32,
) -> io::Result<()>
    requires { (ReadyToList bytes.now s.old m.old nodes last) × (place.old ≡ 0) }
    ensures place { OnOk result (place.new ≡ length (printout bytes.now)) }
    ensures words { OnOk result (lend s.new m.new ≡ cycles_on (cycles_listed bytes.now) (before_cycles bytes.now)) }
    ensures written { OnOk result (Appends (W.contents writer.old) (W.contents writer.new) (printout bytes.now)) }
    ensures err { OnErr result (Halted bytes.now place.new (lend s.new m.new)) }
    ensures stopped { OnErr result (GotPart (W.contents writer.old) (W.contents writer.new) (printout bytes.now)) }
{
    write_part(writer, bytes, place, b"cycle node address word kind\n")?;
    let mut buffer = [0u8; 65536];
    write_pages(writer, bytes, place, s, m, nodes, last, &mut buffer)
}

// Runs the session of a sheet on a state of zeros and room for its memories.
fn run_session<W: Write>(
    writer: &mut W,
    bytes: &[u8],
    place: &mut usize,
    sheet: &[u32],
    s: &mut [u32],
    m: &mut [u32],
) -> io::Result<()>
    requires { (Lendable bytes.now sheet.now s.old m.old) × (place.old ≡ 0) }
    ensures place { OnOk result (place.new ≡ length (printout bytes.now)) }
    ensures words { OnOk result (lend s.new m.new ≡ at_end bytes.now) }
    ensures written { OnOk result (Appends (W.contents writer.old) (W.contents writer.new) (printout bytes.now)) }
    ensures err { OnErr result (Halted bytes.now place.new (lend s.new m.new)) }
    ensures stopped { OnErr result (GotPart (W.contents writer.old) (W.contents writer.new) (printout bytes.now)) }
{
    if let Err(refusal) = calls::prepare(bytes, sheet, s, m) {
        return print_complaint(writer, bytes, place, Complaint::Refused(refusal));
    }
    let nodes = input::nodes_of(sheet);
    let last = input::cycles_in(bytes, 1 + sheet.len() + m.len());
    list(writer, bytes, place, s, m, nodes, last)
}

// Reads the sheet of an input whose words are all there, and makes room for its memories.
fn run<W: Write>(
    writer: &mut W,
    bytes: &[u8],
    place: &mut usize,
    sheet: &mut [u32],
) -> io::Result<()>
    requires { (input_message bytes.now ≡ Runs) × (length sheet.old ≡ stated_length bytes.now) × (place.old ≡ 0) }
    ensures place { OnOk result (place.new ≡ length (printout bytes.now)) }
    ensures written { OnOk result (Appends (W.contents writer.old) (W.contents writer.new) (printout bytes.now)) }
    ensures sheet { sheet.new ≡ sheet_of bytes.now }
    ensures err { OnErr result (place.new ≤ length (printout bytes.now)) }
    ensures stopped { OnErr result (GotPart (W.contents writer.old) (W.contents writer.new) (printout bytes.now)) }
{
    octets::read_words(bytes, 1, sheet);
    let size = input::memory_size(sheet) as usize;
    let mut state = [0u32; network::STATE_WORDS];
    let mut memory = [0u32; 4096];
    run_session(writer, bytes, place, sheet, &mut state, &mut memory[..size])
}

// Makes room for the sheet of an input whose words are all there.
fn run_input<W: Write>(writer: &mut W, bytes: &[u8], place: &mut usize) -> io::Result<()>
    requires { (input_message bytes.now ≡ Runs) × (place.old ≡ 0) }
    ensures place { OnOk result (place.new ≡ length (printout bytes.now)) }
    ensures written { OnOk result (Appends (W.contents writer.old) (W.contents writer.new) (printout bytes.now)) }
    ensures err { OnErr result (place.new ≤ length (printout bytes.now)) }
    ensures stopped { OnErr result (GotPart (W.contents writer.old) (W.contents writer.new) (printout bytes.now)) }
{
    let n = octets::word_in(bytes, 0) as usize;
    let mut sheet = [0u32; sheet::SHEET_WORDS as usize];
    run(writer, bytes, place, &mut sheet[..n])
}

// Prints all of an input's output: the one line that it earns, or the listing.
fn answer<W: Write>(writer: &mut W, bytes: &[u8], place: &mut usize) -> io::Result<()>
    requires { place.old ≡ 0 }
    ensures place { OnOk result (place.new ≡ length (printout bytes.now)) }
    ensures written { OnOk result (Appends (W.contents writer.old) (W.contents writer.new) (printout bytes.now)) }
    ensures err { OnErr result (place.new ≤ length (printout bytes.now)) }
    ensures stopped { OnErr result (GotPart (W.contents writer.old) (W.contents writer.new) (printout bytes.now)) }
{
    match input::check_input(bytes) {
        Ok(()) => run_input(writer, bytes, place),
        Err(complaint) => print_complaint(writer, bytes, place, complaint),
    }
}

// Reads the input, and prints all of its output.
fn respond<R: Read, W: Write>(reader: &mut R, writer: &mut W) -> io::Result<()>
    ensures ok { OnOk result (Answered (R.remaining reader.old) (R.remaining reader.new) (W.contents writer.old) (W.contents writer.new)) }
    ensures err { OnErr result (BrokenOff (R.remaining reader.old) (R.remaining reader.new) (W.contents writer.old) (W.contents writer.new)) }
{
    let mut bytes = [0u8; input::MOST_BYTES];
    let n = streams::read_full(reader, &mut bytes)?;
    let mut place = 0;
    answer(writer, &bytes[..n], &mut place)
}

fn main(rt: HostRuntime) -> io::Result<()> {
    respond(&mut rt.stdin(), &mut rt.stdout())
}
