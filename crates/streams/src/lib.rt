// Reading a stream into a buffer, and writing a text to one.
#![tactic(auto)]

ghost use Rattle.std.specs.Prelude.{ℕ, ◌<◌, ◌≤◌, length, take, IfOk, OnOk, OnErr};
ghost use Rattle.std.specs.Io.{ReadsAtMost};
ghost use Rattle.std.specs.Io.KnownBytes.{Consumes, IsAtEnd, Appends};
ghost use Rattle.streams.specs.Written.{GotPart};

use std::io;
use std::io::{Error, ErrorKind, Read, Write};

// Reads until the buffer is full or the input ends, and answers how many bytes stand at its start. The only error is that of a read, and
// ends it at once; what was read before then stands at the buffer's start. std's `read_exact` takes an input that ends for an error, and does
// not say what an error has left read.
pub fn read_full<R: Read>(reader: &mut R, buffer: &mut [u8]) -> io::Result<usize>
    ensures bound { ReadsAtMost result buffer.new }
    ensures bytes { IfOk result (λ n. Consumes (R.remaining reader.old) (R.remaining reader.new) (take n buffer.new)) }
    ensures whole { IfOk result (λ n. n < length buffer.old → IsAtEnd (R.remaining reader.new)) }
    ensures err { OnErr result ((n : ℕ) × (n ≤ length buffer.new) × Consumes (R.remaining reader.old) (R.remaining reader.new) (take n buffer.new)) }
{
    let mut done = 0;
    while done < buffer.len() {
        let n = reader.read(&mut buffer[done..])?;
        if n == 0 {
            break;
        }
        done += n;
    }
    Ok(done)
}

// Writes all of a text, in as many writes as that takes, and again where a signal interrupts one, as std's `write_all` does, which does not
// say what an error leaves written. What ends it is an error of a write, a write that takes no byte, or the last of 2^64 tries.
pub fn write_whole<W: Write>(writer: &mut W, text: &[u8]) -> io::Result<()>
    ensures written { OnOk result (Appends (W.contents writer.old) (W.contents writer.new) text.now) }
    ensures err { OnErr result (GotPart (W.contents writer.old) (W.contents writer.new) text.now) }
{
    let mut done = 0;
    'writes: for _ in 0..u64::MAX {
        if done == text.len() {
            return Ok(());
        }
        match writer.write(&text[done..]) {
            Ok(0) => {
                return Err(Error::new(ErrorKind::WriteZero, "failed to write whole buffer"));
            }
            Ok(n) => done += n,
            Err(e) if e.kind() == ErrorKind::Interrupted => {}
            Err(e) => return Err(e),
        }
    }
    Err(Error::new(
        ErrorKind::TimedOut,
        "gave up reading or writing after 2^64 tries",
    ))
}

#[cfg(test)]
mod tests {
    use super::*;
    use std::io::{Error, ErrorKind};

    // Gives one byte at each read, and then fails.
    #[derive(Drop)]
    struct Failing {
        left: u8,
    }

    impl Read for Failing {
        fn read(&mut self, buf: &mut [u8]) -> io::Result<usize> {
            if self.left == 0 {
                return Err(Error::from(ErrorKind::ConnectionReset));
            }
            if buf.is_empty() {
                return Ok(0);
            }
            buf[0] = self.left;
            self.left -= 1;
            Ok(1)
        }
    }

    #[test]
    fn reads_to_the_end(rt: HostRuntime) {
        let mut input: &[u8] = b"abc";
        let mut buffer = [0u8; 2];
        let first = read_full(&mut input, &mut buffer);
        assert!(rt; matches!(first, Ok(2)));
        assert_eq!(rt; buffer, *b"ab");
        let second = read_full(&mut input, &mut buffer);
        assert!(rt; matches!(second, Ok(1)));
        assert_eq!(rt; buffer[0], b'c');
    }

    #[test]
    fn goes_on_after_a_short_read(rt: HostRuntime) {
        let mut buffer = [0u8; 3];
        let n = read_full(&mut Failing { left: 3 }, &mut buffer);
        assert!(rt; matches!(n, Ok(3)));
        assert_eq!(rt; buffer, [3, 2, 1]);
    }

    #[test]
    fn passes_on_an_error(rt: HostRuntime) {
        let mut buffer = [0u8; 4];
        let failed = read_full(&mut Failing { left: 3 }, &mut buffer);
        let kind = failed.err().map(|e| e.kind());
        assert_eq!(rt; kind, Some(ErrorKind::ConnectionReset));
    }

    // Takes two bytes a write, and fails where it has taken all that it may.
    #[derive(Drop)]
    struct Narrow {
        taken: usize,
        most: usize,
    }

    impl Write for Narrow {
        fn write(&mut self, buf: &[u8]) -> io::Result<usize> {
            if self.taken >= self.most {
                return Err(Error::from(ErrorKind::BrokenPipe));
            }
            let n = if buf.len() < 2 { buf.len() } else { 2 };
            if self.taken < 1000 {
                self.taken += n;
            }
            Ok(n)
        }

        fn flush(&mut self) -> io::Result<()> {
            Ok(())
        }
    }

    #[test]
    fn writes_to_the_end(rt: HostRuntime) {
        let mut writer = Narrow {
            taken: 0,
            most: 100,
        };
        let written = write_whole(&mut writer, b"abcde");
        assert!(rt; written.is_ok());
        assert_eq!(rt; writer.taken, 5);
    }

    #[test]
    fn passes_on_a_writers_error(rt: HostRuntime) {
        let mut writer = Narrow { taken: 0, most: 4 };
        let failed = write_whole(&mut writer, b"abcde");
        let kind = failed.err().map(|e| e.kind());
        assert_eq!(rt; kind, Some(ErrorKind::BrokenPipe));
        assert_eq!(rt; writer.taken, 4);
    }
}
