// The filler: reads the exchanges' quotes on file descriptor 3 and a sheet on standard input, has the sheet filled, and writes it. What became of each
// case goes to standard error. Both buffers are longer than what they are for, so that a longer input, however long, is seen as one of 65,536 bytes
// and refused as all quotes above 56,000 and every sheet above 52,800 are.
#![tactic(auto)]

ghost use Rattle.std.specs.Prelude.{◌≡◌, take, IfOk, IfSome, OnOk};
ghost use Rattle.std.specs.Counts.{IsPrefixLen};
ghost use Rattle.std.specs.Io.KnownBytes.{Appends};
ghost use Rattle.fillings.specs.Fillings.{fill_sheet_of};

use std::fs::File;
use std::io;
use std::io::{Read, Write};
use std::rt::Files;
use thiserror::Error;

#[derive(Debug, Drop, Error)]
enum Failure {
    #[error("the quotes cannot be read")]
    Quotes,
    #[error("standard input cannot be read")]
    Sheet,
    #[error("the sheet cannot be written")]
    Filled,
}

// Reads the quotes. How many bytes there are.
fn read_quotes<R: Files>(rt: &R, quotes: &mut [u8]) -> io::Result<usize>
    ensures { IfOk result (λ n. IsPrefixLen n quotes.new) }
{
    streams::read_ended(&mut File::open(rt, streams::THIRD)?, quotes)
}

// Fills the sheet, and writes it where it is not refused whole.
fn write_filled<W: Write>(output: &mut W, quotes: &[u8], sheet: &mut [u8]) -> io::Result<()>
    ensures filled { sheet.new ≡ (fill_sheet_of quotes.now sheet.old).1 }
    ensures written { OnOk result ((fill_sheet_of quotes.now sheet.old).0 ≡ 0 → Appends (W.contents output.old) (W.contents output.new) sheet.new) }
{
    if fillings::fill_sheet(quotes, sheet) == 0 {
        streams::write_all(output, sheet)?;
    }
    Ok(())
}

// Fills the sheet that the input has, and tells what became of each case. Of one that stopped before its end nothing is filled: a part of it must not be
// taken for all. Where only the telling fails, the sheet is written, and there is nowhere to say so.
fn fill<R: Read, W: Write, E: Write>(
    quotes: &[u8],
    input: &mut R,
    output: &mut W,
    telling: &mut E,
) -> Result<(), Failure>
    ensures { OnOk result (IfSome (R.remaining input.old) (λ bytes. (fill_sheet_of quotes.now (take 65536 bytes)).0 ≡ 0 → Appends (W.contents output.old) (W.contents output.new) (fill_sheet_of quotes.now (take 65536 bytes)).1)) }
{
    let mut sheet = [0u8; 65536];
    let n = streams::read_ended(input, &mut sheet).map_err(|_| Failure::Sheet)?;
    let mut text = [0u8; 131072];
    let k = fill_report::print_filling(quotes, &sheet[..n], &mut text);
    write_filled(output, quotes, &mut sheet[..n]).map_err(|_| Failure::Filled)?;
    let _ = streams::write_all(telling, &text[..k]);
    Ok(())
}

fn run(rt: &HostRuntime) -> Result<(), Failure> {
    let mut quotes = [0u8; 65536];
    let n = read_quotes(rt, &mut quotes).map_err(|_| Failure::Quotes)?;
    fill(
        &quotes[..n],
        &mut rt.stdin(),
        &mut rt.stdout(),
        &mut rt.stderr(),
    )
}

fn main(rt: HostRuntime) {
    if let Err(failure) = run(&rt) {
        let _ = eprintln!(rt; "filler: {failure}");
    }
}
