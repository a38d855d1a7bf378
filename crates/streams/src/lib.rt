// Standard input read to its end and standard output written whole: a call that fails is never
// taken for the end.
#![tactic(auto)]

ghost use Rattle.std.specs.Prelude.{ℕ, ◌<◌, ◌≤◌, length, take, IfOk, OnOk, OnErr};
ghost use Rattle.std.specs.Io.KnownBytes.{Appends, Consumes, IsAtEnd, ReadConsumes, WriteAppends};
ghost use Rattle.streams.specs.AtMostMoved.{AtMostMoved};
ghost use Rattle.streams.specs.SomeMoved.{SomeRead, SomeWritten};

use std::io;
use std::io::{ErrorKind, Input, Read, Write};
use std::process::ExitCode;
use text::OUTPUT;

// One read, made again while a signal interrupts it before it moves a byte; no run uses the turns
// up.
fn read_once<R: Read>(from: &mut R, buf: &mut [u8]) -> io::Result<usize>
    ensures bound { AtMostMoved (length buf.old) result }
    ensures bytes { ReadConsumes (R.remaining from.old) (R.remaining from.new) result buf.new }
{
    for _ in 0..u64::MAX {
        match from.read(buf) {
            Err(e) if e.kind() == ErrorKind::Interrupted => {}
            read => return read,
        }
    }
    Err(io::Error::from(ErrorKind::Interrupted))
}

// Reads to the end of the input or of the buffer; how many bytes stand at the front of the buffer
// then. Where a read fails, what was read before it stands there.
pub fn read_full<R: Read>(from: &mut R, buf: &mut [u8]) -> io::Result<usize>
    ensures bound { AtMostMoved (length buf.new) result }
    ensures bytes { IfOk result
        (λ n. Consumes (R.remaining from.old) (R.remaining from.new) (take n buf.new)) }
    ensures end { IfOk result (λ n. n < length buf.new → IsAtEnd (R.remaining from.new)) }
    ensures failed { OnErr result (SomeRead (R.remaining from.old) (R.remaining from.new) buf.new) }
{
    let mut done = 0;
    while done < buf.len() {
        let n = read_once(from, &mut buf[done..])?;
        if n == 0 {
            return Ok(done);
        }
        done += n;
    }
    Ok(done)
}

// One write, made again while a signal interrupts it before it moves a byte.
fn write_once<W: Write>(to: &mut W, buf: &[u8]) -> io::Result<usize>
    ensures bound { AtMostMoved (length buf.now) result }
    ensures bytes { WriteAppends (W.contents to.old) (W.contents to.new) result buf.now }
{
    for _ in 0..u64::MAX {
        match to.write(buf) {
            Err(e) if e.kind() == ErrorKind::Interrupted => {}
            written => return written,
        }
    }
    Err(io::Error::from(ErrorKind::Interrupted))
}

// Writes all of the bytes; an error where a write fails or takes nothing. Then a front of them was
// written.
pub fn write_full<W: Write>(to: &mut W, buf: &[u8]) -> io::Result<()>
    ensures whole { OnOk result (Appends (W.contents to.old) (W.contents to.new) buf.now) }
    ensures failed { OnErr result (SomeWritten (W.contents to.old) (W.contents to.new) buf.now) }
{
    let mut done = 0;
    while done < buf.len() {
        let n = write_once(to, &buf[done..])?;
        if n == 0 {
            return Err(io::Error::from(ErrorKind::WriteZero));
        }
        done += n;
    }
    Ok(())
}

// Reads standard input to its end or the buffer's; where a read fails, says so on standard error.
pub fn read_input<R: Input + Eprint>(rt: &R, buf: &mut [u8]) -> io::Result<usize>
    ensures { AtMostMoved (length buf.new) result }
{
    let read = read_full(&mut rt.reader(), buf);
    if let Err(e) = &read {
        let _ = eprintln!(rt; "standard input: {e}");
    }
    read
}

// Writes all of the bytes to standard output; where a write fails, says so on standard error.
pub fn write_output<R: Print + Eprint>(rt: &R, buf: &[u8]) -> io::Result<()> {
    let written = write_full(&mut io::writer(rt), buf);
    if let Err(e) = &written {
        let _ = eprintln!(rt; "standard output: {e}");
    }
    written
}

// A whole program: reads standard input, one byte more than `answer` takes at most, and writes what
// it puts at the front of the output. Where a read fails it writes nothing, where a write fails
// nothing more, and says so on standard error and ends with status 1.
pub fn run<R, F>(rt: &R, answer: F) -> ExitCode
where
    R: Input + Print + Eprint,
    F: FnOnce(&[u8], &mut [u8; OUTPUT]) -> usize,
    requires callable { F.IsAlwaysCallable answer }
    requires inside { (s : _) (o : _) (r : ℕ) (p : _) → F.post answer s o r p → r ≤ length p.now }
{
    let mut space = [0u8; 16385];
    let Ok(n) = read_input(rt, &mut space) else {
        return ExitCode::FAILURE;
    };
    let mut out = [0u8; OUTPUT];
    let r = answer(&space[..n], &mut out);
    match write_output(rt, &out[..r]) {
        Ok(()) => ExitCode::SUCCESS,
        Err(_) => ExitCode::FAILURE,
    }
}
