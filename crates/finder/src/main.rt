// The finder: reads a time on file descriptor 3 and quotes on standard input, has the text made that says where the best prices before that time
// were born, and writes it. The buffer of the quotes is longer than the longest list of them, so that a longer input, however long, is seen as one
// of 65,536 bytes and refused as every list above 56,000 is.
#![tactic(auto)]

ghost use Rattle.std.specs.Prelude.{take, IfOk, IfSome, OnOk};
ghost use Rattle.std.specs.Counts.{IsPrefixLen};
ghost use Rattle.std.specs.Io.KnownBytes.{Appends};
ghost use Rattle.spelling.specs.Times.{time_in};
ghost use Rattle.standing.specs.Standing.{best_text};

use std::fs::File;
use std::io;
use std::io::{Read, Write};
use std::rt::Files;
use thiserror::Error;

#[derive(Debug, Drop, Error)]
enum Failure {
    #[error("the time cannot be read")]
    Time,
    #[error("standard input cannot be read")]
    Quotes,
    #[error("the text cannot be written")]
    Text,
}

// Reads the time. How many bytes were typed: 0 for a word that fills the buffer, since it is longer than any time is written, and the empty word,
// which is no time either, stands for it.
fn read_time<R: Files>(rt: &R, time: &mut [u8]) -> io::Result<usize>
    ensures { IfOk result (λ n. IsPrefixLen n time.new) }
{
    let typed = streams::read_ended(&mut File::open(rt, streams::THIRD)?, time)?;
    Ok(if typed < time.len() { typed } else { 0 })
}

// Tells where the best prices before the typed time were born, by the quotes that the input has. Of one that stopped before its end nothing is told: a part of it
// must not be answered as if it were all.
fn tell<R: Read, W: Write>(time: &[u8], input: &mut R, output: &mut W) -> Result<(), Failure>
    ensures { OnOk result (IfSome (R.remaining input.old) (λ bytes. Appends (W.contents output.old) (W.contents output.new) (best_text (take 65536 bytes) (time_in time.now)))) }
{
    let mut quotes = [0u8; 65536];
    let n = streams::read_ended(input, &mut quotes).map_err(|_| Failure::Quotes)?;
    let mut text = [0u8; 4096];
    let k = standing::print_best(&quotes[..n], time, &mut text);
    streams::write_all(output, &text[..k]).map_err(|_| Failure::Text)
}

fn run(rt: &HostRuntime) -> Result<(), Failure> {
    let mut time = [0u8; 64];
    let typed = read_time(rt, &mut time).map_err(|_| Failure::Time)?;
    tell(&time[..typed], &mut rt.stdin(), &mut rt.stdout())
}

fn main(rt: HostRuntime) {
    if let Err(failure) = run(&rt) {
        let _ = eprintln!(rt; "finder: {failure}");
    }
}
