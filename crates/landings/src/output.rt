// The one place at which bytes are handed to a writer.
ghost use Rattle.std.specs.Prelude.{◌≡◌, ◌+◌, length, OnOk, OnErr};
ghost use Rattle.std.specs.Io.KnownBytes.{Appends};
ghost use Rattle.streams.specs.Written.{GotPart};
ghost use Rattle.landings.specs.Output.{printout, HasAt};

use std::io;
use std::io::Write;

// Writes the part of the input's output that stands at the place reached, and moves the place behind it: its callers hand over the output
// part by part, from 0 to its end. Where a write fails, they end with its error, so that nothing is written behind a gap. Writer, input and
// place are no struct: each contract would have to say besides that the input stays the same.
pub fn write_part<W: Write>(
    writer: &mut W,
    bytes: &[u8],
    place: &mut usize,
    part: &[u8],
) -> io::Result<()>
    requires { HasAt (printout bytes.now) place.old part.now }
    ensures place { place.new ≡ place.old + length part.now }
    ensures written { OnOk result (Appends (W.contents writer.old) (W.contents writer.new) part.now) }
    ensures err { OnErr result (GotPart (W.contents writer.old) (W.contents writer.new) part.now) }
{
    *place += part.len();
    streams::write_whole(writer, part)
}
