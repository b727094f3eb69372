// The explainer: reads on file descriptor 3 the four bytes of a trade number, or none where every case is asked for, and a sheet on standard input, and
// writes the explanation, piece by piece. The buffer of the sheet is longer than the longest sheet, so that a longer input, however long, is seen as
// one of 65,536 bytes and refused as every sheet above 52,800 is.
#![tactic(auto)]

ghost use Rattle.std.specs.Prelude.{take, IfSome, OnOk};
ghost use Rattle.std.specs.Io.KnownBytes.{Appends};
ghost use Rattle.explanation.specs.Pieces.{explanation_of};

use std::fs::File;
use std::io;
use std::io::{Read, Write};
use std::rt::Files;
use thiserror::Error;

#[derive(Debug, Drop, Error)]
enum Failure {
    #[error("the trade cannot be read")]
    Trade,
    #[error("standard input cannot be read")]
    Sheet,
    #[error("the explanation cannot be written")]
    Explanation,
}

// Reads which cases are asked for: those of a trade by its four bytes, every case by none. Behind these nothing may come.
fn read_wanted<R: Files>(rt: &R) -> Result<Option<u32>, Failure> {
    let mut asked = File::open(rt, streams::THIRD).map_err(|_| Failure::Trade)?;
    let mut trade = [0u8; 4];
    let brought = streams::read_full(&mut asked, &mut trade);
    if !streams::ended(&mut asked) {
        return Err(Failure::Trade);
    }
    match brought {
        0 => Ok(None),
        4 => Ok(Some(wire::read_u32(&trade, 0))),
        _ => Err(Failure::Trade),
    }
}

// Writes the pieces.
fn write_explanation<W: Write>(output: &mut W, sheet: &[u8], want: Option<u32>) -> io::Result<()>
    ensures { OnOk result (Appends (W.contents output.old) (W.contents output.new) (explanation_of sheet.now want)) }
{
    let mut text = [0u8; 20480];
    for k in 0..explanation::count_pieces(sheet) {
        let m = explanation::explain_piece(sheet, k, want, &mut text);
        streams::write_all(output, &text[..m])?;
    }
    Ok(())
}

// Explains the sheet that the input has. Of one that stopped before its end nothing is explained: a part of it must not be answered as if it were all.
fn explain<R: Read, W: Write>(
    want: Option<u32>,
    input: &mut R,
    output: &mut W,
) -> Result<(), Failure>
    ensures { OnOk result (IfSome (R.remaining input.old) (λ bytes. Appends (W.contents output.old) (W.contents output.new) (explanation_of (take 65536 bytes) want))) }
{
    let mut sheet = [0u8; 65536];
    let n = streams::read_ended(input, &mut sheet).map_err(|_| Failure::Sheet)?;
    write_explanation(output, &sheet[..n], want).map_err(|_| Failure::Explanation)
}

fn run(rt: &HostRuntime) -> Result<(), Failure> {
    let want = read_wanted(rt)?;
    explain(want, &mut rt.stdin(), &mut rt.stdout())
}

fn main(rt: HostRuntime) {
    if let Err(failure) = run(&rt) {
        let _ = eprintln!(rt; "explainer: {failure}");
    }
}
