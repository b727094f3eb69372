// The warner: reads a sheet on standard input, and writes what there is to be careful of in it, case by case. The buffer is longer than the longest
// sheet, so that a longer input, however long, is seen as one of 65,536 bytes, of which nothing is told, as of every sheet that is refused.
#![tactic(auto)]

ghost use Rattle.std.specs.Prelude.{take, IfSome, OnOk};
ghost use Rattle.std.specs.Io.KnownBytes.{Appends};
ghost use Rattle.warnings.specs.Warned.{warnings_of};

use std::io;
use std::io::{Read, Write};
use thiserror::Error;

#[derive(Debug, Drop, Error)]
enum Failure {
    #[error("standard input cannot be read")]
    Input,
    #[error("the warnings cannot be written")]
    Warnings,
}

// Writes the warnings; a sheet has at most 600 cases.
fn write_warnings<W: Write>(output: &mut W, sheet: &[u8]) -> io::Result<()>
    ensures { OnOk result (Appends (W.contents output.old) (W.contents output.new) (warnings_of sheet.now)) }
{
    let mut text = [0u8; 8192];
    for k in 0..600 {
        let m = warnings::warn_piece(sheet, k, &mut text);
        streams::write_all(output, &text[..m])?;
    }
    Ok(())
}

// Warns of the sheet that the input has. Of one that stopped before its end nothing is told, since a part of it is not the sheet.
fn warn<R: Read, W: Write>(input: &mut R, output: &mut W) -> Result<(), Failure>
    ensures { OnOk result (IfSome (R.remaining input.old) (λ bytes. Appends (W.contents output.old) (W.contents output.new) (warnings_of (take 65536 bytes)))) }
{
    let mut sheet = [0u8; 65536];
    let n = streams::read_ended(input, &mut sheet).map_err(|_| Failure::Input)?;
    write_warnings(output, &sheet[..n]).map_err(|_| Failure::Warnings)
}

fn main(rt: HostRuntime) {
    if let Err(failure) = warn(&mut rt.stdin(), &mut rt.stdout()) {
        let _ = eprintln!(rt; "warner: {failure}");
    }
}
