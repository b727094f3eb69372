// The printer: reads a sheet on standard input, and writes its report, piece by piece. The buffer is one byte longer than the longest sheet, so
// that a longer input, however long, is seen as one of 52,801 bytes and refused as every sheet above 52,800 is. No piece is longer than 96 bytes.
#![tactic(auto)]

ghost use Rattle.std.specs.Prelude.{◌≡◌, ◌<◌, length, take, IfOk, IfSome, OnOk};
ghost use Rattle.std.specs.Counts.{IsPrefixLen};
ghost use Rattle.std.specs.Io.KnownBytes.{Appends, Consumes, IsAtEnd};
ghost use Rattle.report.specs.Report.{text_of};

use std::io;
use std::io::{Read, Write};
use thiserror::Error;

#[derive(Debug, Drop, Error)]
enum Failure {
    #[error("standard input cannot be read")]
    Input,
    #[error("the report cannot be written")]
    Report,
}

// Writes the report's pieces, until an empty one comes after the last; a sheet of 600 cases has 602.
fn write_report<W: Write>(output: &mut W, sheet: &[u8]) -> io::Result<()>
    ensures { OnOk result (Appends (W.contents output.old) (W.contents output.new) (text_of sheet.now)) }
{
    let mut line = [0u8; 96];
    for k in 0..602 {
        let n = report::print_piece(sheet, k, &mut line);
        if n == 0 {
            return Ok(());
        }
        streams::write_all(output, &line[..n])?;
    }
    Ok(())
}

// Reads the sheet. How many bytes it has, if none of its reads fails.
fn read_sheet<R: Read>(input: &mut R, sheet: &mut [u8]) -> Result<usize, Failure>
    ensures in_bounds { IfOk result (λ n. IsPrefixLen n sheet.new) }
    ensures bytes { IfOk result (λ n. Consumes (R.remaining input.old) (R.remaining input.new) (take n sheet.new)) }
    ensures end { IfOk result (λ n. n < length sheet.new → IsAtEnd (R.remaining input.new)) }
    ensures first { IfOk result (λ n. IfSome (R.remaining input.old) (λ bytes. take n sheet.new ≡ take (length sheet.new) bytes)) }
{
    let Ok(n) = streams::read_whole(input, sheet) else {
        return Err(Failure::Input);
    };
    Ok(n)
}

// Prints the report of the sheet that the input has. Of an input that fails nothing is printed: a part of it must not be ruled as if it were all.
fn print<R: Read, W: Write>(input: &mut R, output: &mut W) -> Result<(), Failure>
    ensures { OnOk result (IfSome (R.remaining input.old) (λ bytes. Appends (W.contents output.old) (W.contents output.new) (text_of (take 52801 bytes)))) }
{
    let mut sheet = [0u8; 52801];
    let n = read_sheet(input, &mut sheet)?;
    write_report(output, &sheet[..n]).map_err(|_| Failure::Report)
}

fn main(rt: HostRuntime) {
    if let Err(failure) = print(&mut rt.stdin(), &mut rt.stdout()) {
        let _ = eprintln!(rt; "printer: {failure}");
    }
}
