// What the programs read and write with: an input up to its end or the buffer's, and an output whole. A call that fails is not tried again, also where
// a signal interrupted it; `ended` alone asks once more.
#![tactic(auto)]

ghost use Rattle.std.specs.Prelude.{◌≡◌, ℕ, ◌<◌, ◌≤◌, ◌++◌, List, [], length, take, IfOk, IfSome, IsTrue, OnOk, OnErr};
ghost use Rattle.std.specs.Counts.{IsPrefixLen};
ghost use Rattle.std.specs.Io.KnownBytes.{Appends, Consumes, IsAtEnd};

use std::io;
use std::io::{ErrorKind, Read, Write};

// The system's name for what stands on file descriptor 3, beside the three that have a name in the library. Opened by its name a file is read from
// its start.
pub const THIRD: &str = "/proc/self/fd/3";

// Reads until the buffer is full, the input ends or a read fails. How many bytes were put at the start of the buffer, and whether a read failed.
fn read_on<R: Read>(input: &mut R, buf: &mut [u8]) -> (usize, io::Result<()>)
    ensures in_bounds { IsPrefixLen result.0 buf.new }
    ensures bytes { Consumes (R.remaining input.old) (R.remaining input.new) (take result.0 buf.new) }
    ensures end { OnOk result.1 (result.0 < length buf.new → IsAtEnd (R.remaining input.new)) }
{
    let mut done = 0;
    while done < buf.len() {
        match input.read(&mut buf[done..]) {
            Ok(0) => break,
            Ok(n) => done += n,
            Err(failure) => return (done, Err(failure)),
        }
    }
    (done, Ok(()))
}

// Reads until the buffer is full, the input ends or a read fails. How many bytes were put at the start of the buffer. A number and no `Result`, since it
// can't fail: where a read does, what came before it counts, and a caller that must know asks `ended`.
pub fn read_full<R: Read>(input: &mut R, buf: &mut [u8]) -> usize
    ensures in_bounds { IsPrefixLen result buf.new }
    ensures bytes { Consumes (R.remaining input.old) (R.remaining input.new) (take result buf.new) }
{
    let (n, _) = read_on(input, buf);
    n
}

// Reads until the buffer is full or the input ends. How many bytes were put at the start of the buffer: where they don't fill it, they are all that
// the input had. Where a read fails there is no count, since a part of an input must not be taken for all of it: what was read before it stands at the
// start of the buffer.
pub fn read_whole<R: Read>(input: &mut R, buf: &mut [u8]) -> io::Result<usize>
    ensures in_bounds { IfOk result (λ n. IsPrefixLen n buf.new) }
    ensures bytes { IfOk result (λ n. Consumes (R.remaining input.old) (R.remaining input.new) (take n buf.new)) }
    ensures end { IfOk result (λ n. n < length buf.new → IsAtEnd (R.remaining input.new)) }
    ensures err { OnErr result ((n : ℕ) × IsPrefixLen n buf.new × Consumes (R.remaining input.old) (R.remaining input.new) (take n buf.new)) }
    ensures first { IfOk result (λ n. IfSome (R.remaining input.old) (λ xs. take n buf.new ≡ take (length buf.new) xs)) }
{
    let (n, read) = read_on(input, buf);
    read?;
    Ok(n)
}

// Whether an input that gave nothing more, or failed, is at its end: then another read gives nothing. A bool, since one that fails is not at its end. Of
// one that is not, a byte may be lost.
pub fn ended<R: Read>(input: &mut R) -> bool
    ensures end { IsTrue result → IsAtEnd (R.remaining input.old) }
    ensures bytes { IsTrue result → Consumes (R.remaining input.old) (R.remaining input.new) [] }
    ensures still { IsTrue result → IsAtEnd (R.remaining input.new) }
    ensures most { (b : List ℕ) × (length b ≤ 1) × Consumes (R.remaining input.old) (R.remaining input.new) b }
{
    let mut more = [0u8; 1];
    matches!(input.read(&mut more), Ok(0))
}

// Reads as `read_full` does, and where there is room left asks once more: an input that still gives something, or fails, was not at its end, and a part
// of it must not be taken for all of it. How many bytes were put at the start of the buffer; where there is no number, what was read stands there, but for
// the byte that was asked for.
pub fn read_ended<R: Read>(input: &mut R, buf: &mut [u8]) -> io::Result<usize>
    ensures in_bounds { IfOk result (λ n. IsPrefixLen n buf.new) }
    ensures bytes { IfOk result (λ n. Consumes (R.remaining input.old) (R.remaining input.new) (take n buf.new)) }
    ensures end { IfOk result (λ n. n < length buf.new → IsAtEnd (R.remaining input.new)) }
    ensures err { OnErr result ((n : ℕ) × IsPrefixLen n buf.new × ((b : List ℕ) × (length b ≤ 1) × Consumes (R.remaining input.old) (R.remaining input.new) (take n buf.new ++ b))) }
    ensures first { IfOk result (λ n. IfSome (R.remaining input.old) (λ xs. take n buf.new ≡ take (length buf.new) xs)) }
{
    let n = read_full(input, buf);
    if n < buf.len() && !ended(input) {
        return Err(ErrorKind::UnexpectedEof.into());
    }
    Ok(n)
}

// Writes all of the bytes. A write that takes nothing has failed, and of no bytes none is made.
pub fn write_all<W: Write>(output: &mut W, bytes: &[u8]) -> io::Result<()>
    ensures { OnOk result (Appends (W.contents output.old) (W.contents output.new) bytes.now) }
{
    let mut done = 0;
    while done < bytes.len() {
        match output.write(&bytes[done..])? {
            0 => return Err(ErrorKind::WriteZero.into()),
            n => done += n,
        }
    }
    Ok(())
}
